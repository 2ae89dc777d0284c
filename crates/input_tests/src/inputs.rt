use answers::Numbered;
use input::{Input, Refusal, SliceInput, Window, WindowInput};
use std::test::Fail;

#[test]
fn a_slice_shows_its_bytes(rt: HostRuntime) {
    let input = SliceInput::new(b"abc");
    assert_eq!(rt; input.len(), 3);
    assert_eq!(rt; input.byte(0), Some(b'a'));
    assert_eq!(rt; input.byte(2), Some(b'c'));
    assert_eq!(rt; input.byte(3), None);
    assert_eq!(rt; input.byte(usize::MAX), None);
}

#[test]
fn the_longest_slice(rt: HostRuntime) -> Result<(), Fail> {
    let bytes = vec![in rt.alloc(); 7u8; 16_777_216]?;
    assert_eq!(rt; SliceInput::test(bytes.as_slice()), Ok(()));
    let input = SliceInput::new(bytes.as_slice());
    assert_eq!(rt; input.len(), 16_777_216);
    assert_eq!(rt; input.byte(16_777_215), Some(7));
    Ok(())
}

#[test]
fn a_slice_too_long(rt: HostRuntime) -> Result<(), Fail> {
    let bytes = vec![in rt.alloc(); 7u8; 16_777_217]?;
    assert_eq!(rt;
        SliceInput::test(bytes.as_slice()),
        Err(Refusal::SliceLength)
    );
    assert_eq!(rt; Refusal::SliceLength.number(), 20);
    let input = SliceInput::new(bytes.as_slice());
    assert_eq!(rt; input.len(), 0);
    assert_eq!(rt; input.byte(0), None);
    Ok(())
}

fn shown(left: usize, right: usize) -> (usize, Option<u8>, Option<u8>) {
    let window = WindowInput::new(SliceInput::new(b"abcd"), Window { left, right });
    (window.len(), window.byte(0), window.byte(1))
}

#[test]
fn windows(rt: HostRuntime) {
    assert_eq!(rt; shown(0, 0), (0, None, None));
    assert_eq!(rt; shown(4, 4), (0, None, None));
    assert_eq!(rt; shown(5, 5), (0, None, None));
    assert_eq!(rt; shown(3, 1), (0, None, None));
    assert_eq!(rt; shown(0, 5), (0, None, None));
    assert_eq!(rt; shown(usize::MAX, usize::MAX), (0, None, None));
    assert_eq!(rt; shown(0, 4), (4, Some(b'a'), Some(b'b')));
    assert_eq!(rt; shown(1, 3), (2, Some(b'b'), Some(b'c')));
    assert_eq!(rt; shown(3, 4), (1, Some(b'd'), None));
}

#[test]
fn a_window_of_a_lent_window(rt: HostRuntime) {
    let middle = Window { left: 1, right: 5 };
    let outer = WindowInput::new(SliceInput::new(b"abcdef"), middle);
    let inner = WindowInput::new(&outer, Window { left: 1, right: 3 });
    assert_eq!(rt; inner.len(), 2);
    assert_eq!(rt; inner.byte(0), Some(b'c'));
    assert_eq!(rt; outer.byte(0), Some(b'b'));
}
