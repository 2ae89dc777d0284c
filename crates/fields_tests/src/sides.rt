use crate::length24::Length24;
use crate::told::{at, reading};
use fields::{Builtin, FieldReader, Joined};
use input::SliceInput;

const BYTES: [u8; 4] = [0x01, 0x02, 0x03, 0x04];

#[test]
fn a_reader_of_ones_own(rt: HostRuntime) {
    let input = SliceInput::new(&BYTES);
    let mine = Length24 { number: 50 };
    assert_eq!(rt; mine.read(50, &input, at(0, 3)), reading(0x01_02_03, 3));
    assert_eq!(rt; mine.read(50, &input, at(1, 4)), reading(0x02_03_04, 3));
    assert_eq!(rt; mine.read(50, &input, at(0, 2)), None);
    assert_eq!(rt; mine.read(33, &input, at(0, 4)), None);
}

#[test]
fn both_sides(rt: HostRuntime) {
    let input = SliceInput::new(&BYTES);
    let mine = Length24 { number: 50 };
    let both = Joined {
        left: Builtin,
        right: &mine,
    };
    assert!(rt; both.owns(33) && both.owns(50));
    assert!(rt; !both.owns(51));
    assert_eq!(rt; both.read(33, &input, at(0, 4)), reading(0x0201, 2));
    assert_eq!(rt; both.read(50, &input, at(0, 4)), reading(0x01_02_03, 3));
    assert_eq!(rt; both.read(51, &input, at(0, 4)), None);
}

// Where both sides own a number the left one answers, also if it refuses.
#[test]
fn sides_that_overlap(rt: HostRuntime) {
    let input = SliceInput::new(&BYTES);
    let mine = Length24 { number: 33 };
    let mine_first = Joined {
        left: mine,
        right: Builtin,
    };
    let mine_last = Joined {
        left: Builtin,
        right: mine,
    };
    assert_eq!(rt;
        mine_first.read(33, &input, at(0, 4)),
        reading(0x01_02_03, 3)
    );
    assert_eq!(rt; mine_last.read(33, &input, at(0, 4)), reading(0x0201, 2));
    assert_eq!(rt; mine_first.read(33, &input, at(0, 2)), None);
    assert_eq!(rt; mine_first.read(32, &input, at(0, 2)), reading(0x01, 1));
}
