/// A field's value, and how many bytes from the front of its window were used for it.
#[derive(Clone, Copy, PartialEq, Eq, Debug)]
pub struct Reading {
    pub value: u64,
    pub used: usize,
}
