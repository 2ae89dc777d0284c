use crate::frame::Frame;
use crate::outcome::{Outcome, Refusal};
use crate::parse::Request;
use crate::setting::Setting;
use answers::Numbered;
use arena::{Ends, Span, Term};
use fields::Builtin;
use input::{SliceInput, Window};
use meaning::Node;
use sealed::{Code, Sealed};
use std::alloc::Global;

// One rule with one alternative: "ab" at its left end, then a `u8` up to EOI.
fn letters_and_byte(heap: Global) -> Option<Sealed> {
    let spans = [
        Span { from: 0, to: 1 },
        Span { from: 1, to: 2 },
        Span { from: 2, to: 3 },
    ];
    let front = Ends {
        left: spans[0],
        right: spans[1],
    };
    let rest = Ends {
        left: spans[1],
        right: spans[2],
    };
    let both = Span { from: 0, to: 2 };
    Sealed::new(
        Vec::from_slice(heap, &[spans[0]]).ok()?,
        Vec::from_slice(heap, &[both]).ok()?,
        Vec::from_slice(heap, &[Term::Literal(both, front), Term::Call(32, rest)]).ok()?,
        Vec::from_slice(heap, b"ab").ok()?,
        Vec::from_slice(heap, &[Code::Number(0), Code::Number(2), Code::Eoi]).ok()?,
    )
}

fn parse(
    grammar: &Sealed,
    rule: u16,
    window: Window,
    nodes: &mut [Node],
) -> Result<Outcome, Refusal> {
    let input = SliceInput::new(b"xxabczz");
    let setting = Setting {
        grammar,
        readers: &Builtin,
        input: &input,
    };
    let request = Request {
        rule,
        window,
        budget: 10,
    };
    setting.parse(request, &mut [Frame::default(); 4], nodes)
}

#[test]
fn a_match_in_a_window(rt: HostRuntime) {
    let grammar = letters_and_byte(rt.alloc()).expect(&rt, "memory");
    let mut nodes = [Node::default(); 4];
    let window = Window { left: 2, right: 5 };
    let outcome = parse(&grammar, 0, window, &mut nodes).expect(&rt, "parsed");
    assert_eq!(rt; outcome.number(), 0);
    assert_eq!(rt; outcome.nodes, 2);
    assert_eq!(rt; outcome.starts, 2);
    assert_eq!(rt; outcome.reach, window);
    assert_eq!(rt; nodes[0].used, window);
    assert_eq!(rt; nodes[1].used, Window { left: 4, right: 5 });
    assert_eq!(rt; nodes[1].slots[0], 99);
    assert_eq!(rt; nodes[2], Node::default());
}

#[test]
fn no_match_and_no_rule(rt: HostRuntime) {
    let grammar = letters_and_byte(rt.alloc()).expect(&rt, "memory");
    let mut nodes = [Node::default(); 4];
    let window = Window { left: 3, right: 5 };
    assert_eq!(rt; parse(&grammar, 0, window, &mut nodes).number(), 24);
    assert_eq!(rt; parse(&grammar, 1, window, &mut nodes).number(), 21);
    let past = Window { left: 3, right: 8 };
    assert_eq!(rt; parse(&grammar, 0, past, &mut nodes).number(), 22);
    assert_eq!(rt; parse(&grammar, 0, window, &mut []).number(), 23);
}
