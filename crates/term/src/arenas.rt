ghost use Rattle.std.specs.Prelude.{◌≡◌, IfOk};
ghost use Rattle.term.specs.Tables.{tables, blank};

use arena::{Arena, Span, Term};
use code::{Codes, Name};
use std::alloc::{AllocError, Global};

/// A term as it was read: calls and attributes go by name, an attribute's with its place in the text.
pub type NamedTerm = Term<Name, (Name, usize)>;

/// A rule: its name, the name's place in the text, and its part of the alternatives.
#[derive(Clone, Copy, PartialEq, Eq, Debug)]
pub struct Rule {
    pub name: Name,
    pub place: usize,
    pub alternatives: Span,
}

/// The memory of a draft. An alternative is a part of the terms. Each arena has room for one more than its limit, so that a full one tells that the limit was passed.
#[derive(Drop)]
pub struct Arenas {
    pub rules: Arena<Rule, 33>,
    pub alternatives: Arena<Span, 97>,
    pub terms: Arena<NamedTerm, 257>,
    pub bytes: Arena<u8, 513>,
    pub code: Codes,
}

impl Arenas {
    /// Empty arenas, with the room for all that they will hold.
    pub fn new(heap: Global) -> Result<Arenas, AllocError>
        ensures { IfOk result (λ arenas. tables arenas ≡ blank) }
    {
        Ok(Arenas {
            rules: Arena::new(heap)?,
            alternatives: Arena::new(heap)?,
            terms: Arena::new(heap)?,
            bytes: Arena::new(heap)?,
            code: Arena::new(heap)?,
        })
    }
}
