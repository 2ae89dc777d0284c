use crate::two::{Frame, push_two};
use answers::Numbered;
use stack::{Stack, StackCall, StackRefusal};

#[test]
fn numbers(rt: HostRuntime) {
    let mut slots = [0u64; 2];
    let mut stack = Stack::new(&mut slots);
    assert_eq!(rt; stack.pop(), Err(StackRefusal::Empty));
    assert_eq!(rt; stack.top(), None);
    assert_eq!(rt; stack.push(7), Ok(()));
    assert_eq!(rt; stack.push(8), Ok(()));
    assert_eq!(rt; stack.push(9), Err(StackRefusal::Full));
    assert_eq!(rt; stack.top(), Some(8));
    assert_eq!(rt; stack.depth(), 2);
    assert_eq!(rt; stack.pop(), Ok(8));
    assert_eq!(rt; stack.pop(), Ok(7));
    assert_eq!(rt; stack.depth(), 0);
    assert_eq!(rt; slots, [7, 8]);
}

#[test]
fn frames(rt: HostRuntime) {
    let blank = Frame {
        rule: 0,
        left: 0,
        right: 0,
    };
    let outer = Frame {
        rule: 1,
        left: 0,
        right: 9,
    };
    let inner = Frame {
        rule: 2,
        left: 3,
        right: 5,
    };
    let mut slots = [blank; 3];
    assert_eq!(rt; push_two(&mut slots, outer, inner), Ok(inner));
    assert_eq!(rt; slots, [outer, inner, blank]);
}

#[test]
fn little_room(rt: HostRuntime) {
    let mut one = [5u64; 1];
    assert_eq!(rt; push_two(&mut one, 7, 8), Ok(7));
    assert_eq!(rt; one, [7]);
    let mut none = [0u64; 0];
    assert_eq!(rt; push_two(&mut none, 7, 8), Err(StackRefusal::Empty));
}

#[test]
fn refusal_numbers(rt: HostRuntime) {
    assert_eq!(rt; StackRefusal::Full.number(), 28);
    assert_eq!(rt; StackRefusal::Empty.number(), 29);
}

#[test]
fn paired_calls(rt: HostRuntime) {
    let mut slots = [0u64; 3];
    let mut stack = Stack::new(&mut slots);
    assert_eq!(rt; stack.push(5), Ok(()));
    stack.make_all(&[
        StackCall::Push(6),
        StackCall::Push(7),
        StackCall::Pop,
        StackCall::Pop,
    ]);
    assert_eq!(rt; stack.depth(), 1);
    assert_eq!(rt; stack.top(), Some(5));
    assert_eq!(rt; slots, [5, 6, 7]);
}
