// What the tests of readers write over and over.
use fields::Reading;
use input::Window;

pub fn at(left: usize, right: usize) -> Window {
    Window { left, right }
}

pub fn reading(value: u64, used: usize) -> Option<Reading> {
    Some(Reading { value, used })
}
