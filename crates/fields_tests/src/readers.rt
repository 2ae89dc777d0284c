use crate::any_reader::{read_both, used};
use crate::told::{at, reading};
use fields::{Builtin, FieldReader, reader_name, reader_number};
use input::{Bench, SliceInput, WindowInput};

const BYTES: [u8; 10] = [0x81, 0x02, 0x03, 0x84, 0x05, 0x06, 0x07, 0x88, 0x09, 0xFF];

#[test]
fn shortest_windows(rt: HostRuntime) {
    let input = SliceInput::new(&BYTES);
    assert_eq!(rt; Builtin.read(32, &input, at(0, 1)), reading(0x81, 1));
    assert_eq!(rt; Builtin.read(33, &input, at(0, 2)), reading(0x0281, 2));
    assert_eq!(rt; Builtin.read(35, &input, at(0, 4)), reading(0x8403_0281, 4));
    assert_eq!(rt;
        Builtin.read(37, &input, at(0, 8)),
        reading(0x8807_0605_8403_0281, 8)
    );
    assert_eq!(rt; Builtin.read(40, &input, at(0, 1)), reading(1, 1));
}

#[test]
fn one_byte_less(rt: HostRuntime) {
    let input = SliceInput::new(&BYTES);
    assert_eq!(rt; Builtin.read(32, &input, at(0, 0)), None);
    assert_eq!(rt; Builtin.read(33, &input, at(0, 1)), None);
    assert_eq!(rt; Builtin.read(35, &input, at(0, 3)), None);
    assert_eq!(rt; Builtin.read(37, &input, at(0, 7)), None);
    assert_eq!(rt; Builtin.read(40, &input, at(0, 0)), None);
}

#[test]
fn longer_windows(rt: HostRuntime) {
    let input = SliceInput::new(&BYTES);
    assert_eq!(rt; Builtin.read(32, &input, at(0, 10)), reading(0x81, 1));
    assert_eq!(rt; Builtin.read(33, &input, at(0, 10)), reading(0x0281, 2));
    assert_eq!(rt; Builtin.read(35, &input, at(0, 5)), reading(0x8403_0281, 4));
    assert_eq!(rt;
        Builtin.read(37, &input, at(0, 9)),
        reading(0x8807_0605_8403_0281, 8)
    );
    assert_eq!(rt; Builtin.read(40, &input, at(0, 10)), reading(10, 10));
}

#[test]
fn the_far_end(rt: HostRuntime) {
    let input = SliceInput::new(&BYTES);
    assert_eq!(rt; Builtin.read(32, &input, at(9, 10)), reading(0xFF, 1));
    assert_eq!(rt; Builtin.read(33, &input, at(8, 10)), reading(0xFF09, 2));
    assert_eq!(rt;
        Builtin.read(37, &input, at(2, 10)),
        reading(0xFF09_8807_0605_8403, 8)
    );
    assert_eq!(rt; Builtin.read(32, &input, at(10, 10)), None);
    assert_eq!(rt; Builtin.read(40, &input, at(9, 11)), None);
    assert_eq!(rt; Builtin.read(40, &input, at(5, 4)), None);
}

#[test]
fn numbers_not_owned(rt: HostRuntime) {
    let input = SliceInput::new(&BYTES);
    assert!(rt; Builtin.owns(37));
    assert!(rt; !Builtin.owns(34));
    assert_eq!(rt; Builtin.read(34, &input, at(0, 10)), None);
    assert_eq!(rt; Builtin.read(41, &input, at(0, 10)), None);
}

#[test]
fn names(rt: HostRuntime) {
    assert_eq!(rt; reader_number(b"u64le"), Some(37));
    assert_eq!(rt; reader_number(b"u64"), None);
    assert_eq!(rt; reader_number(b""), None);
    assert_eq!(rt; reader_name(33), Some("u16le"));
    assert_eq!(rt; reader_name(36), None);
}

#[test]
fn over_a_window(rt: HostRuntime) {
    let window = WindowInput::new(SliceInput::new(&BYTES), at(3, 6));
    assert_eq!(rt; Builtin.read(33, &window, at(1, 3)), reading(0x0605, 2));
    assert_eq!(rt; Builtin.read(33, &window, at(2, 3)), None);
    assert_eq!(rt; Builtin.read(40, &window, at(0, 4)), None);
    assert_eq!(rt; used(&Builtin, 40, &window, at(0, 3)), 3);
}

#[test]
fn over_a_bench(rt: HostRuntime) {
    let mut bench = Bench::new(SliceInput::new(&BYTES));
    assert_eq!(rt; bench.patch(1, &[0x77]), Ok(()));
    assert_eq!(rt; Builtin.read(33, &bench, at(0, 2)), reading(0x7781, 2));
    assert_eq!(rt; Builtin.read(33, &bench, at(2, 4)), reading(0x8403, 2));
    assert_eq!(rt; bench.undo(), Ok(()));
    assert_eq!(rt; Builtin.read(33, &bench, at(0, 2)), reading(0x0281, 2));
}

#[test]
fn inputs_of_different_make(rt: HostRuntime) {
    let slice = SliceInput::new(&BYTES);
    let mut bench = Bench::new(slice);
    assert_eq!(rt; bench.patch(2, &[0x77, 0x78]), Ok(()));
    let (one, other) = read_both(&Builtin, 33, &slice, &bench);
    assert_eq!(rt; one, other);
}
