use crate::span::{Ends, Span};

/// A term of an alternative, whose expressions are parts of the code of its rules. `C` tells what is called, `A` which
/// attribute is set: names as they are read, numbers once they are resolved.
#[derive(Clone, Copy, PartialEq, Eq, Debug, Drop)]
pub enum Term<C, A> {
    /// A part of the literals' bytes, and where they must stand.
    Literal(Span, Ends),
    /// What is called, and its window.
    Call(C, Ends),
    /// An attribute, and its value.
    Attribute(A, Span),
    Guard(Span),
}
