ghost use Rattle.std.specs.Prelude.{◌≤◌, vec_len};

use crate::code::Code;
use arena::{Span, Term};

pub mod calls;
pub mod make;

/// A grammar whose names are resolved. Rules are parts of the alternatives, and alternatives parts of the terms.
#[derive(Drop)]
pub struct Sealed {
    pub rules: Vec<Span>,
    pub alternatives: Vec<Span>,
    /// What is called is a rule's number, or from 32 on a field reader's; an attribute goes by its slot.
    pub terms: Vec<Term<u16, usize>>,
    pub bytes: Vec<u8>,
    pub code: Vec<Code>,
    ghost few_rules: { vec_len rules ≤ 32 },
    ghost few_alternatives: { vec_len alternatives ≤ 96 },
    ghost few_terms: { vec_len terms ≤ 256 },
    ghost few_bytes: { vec_len bytes ≤ 512 },
    ghost short_code: { vec_len code ≤ 1024 },
}
