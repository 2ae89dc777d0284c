use operators::Op;

/// A part or an operator of an expression, each operator behind its two sides.
#[derive(Clone, Copy, PartialEq, Eq, Debug)]
pub enum Code {
    Number(u64),
    /// The length of the rule's window.
    Eoi,
    /// An attribute of the rule, by its slot.
    Own(usize),
    /// An attribute, by its slot, of an earlier call, by its term number.
    OfCall(usize, usize),
    /// The left end of what an earlier call used.
    StartOf(usize),
    /// The right end of it.
    EndOf(usize),
    Apply(Op),
    /// What stands before it was written in brackets: it counts as a part and does nothing.
    Bracket,
}
