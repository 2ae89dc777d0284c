ghost use Rattle.std.specs.Prelude.{◌≡◌, false, Some, None, vec_len};
ghost use Rattle.sealed.specs.Limits.{in_limits};

use super::Sealed;
use crate::code::Code;
use arena::{Span, Term};

impl Sealed {
    /// A grammar of these parts, unless one of the lists is too long.
    pub fn new(
        rules: Vec<Span>,
        alternatives: Vec<Span>,
        terms: Vec<Term<u16, usize>>,
        bytes: Vec<u8>,
        code: Vec<Code>,
    ) -> Option<Sealed>
        ensures { elim result [
          | Some s ↦ (s.rules ≡ rules) × (s.alternatives ≡ alternatives) × (s.terms ≡ terms) × (s.bytes ≡ bytes) × (s.code ≡ code)
          | None ↦ in_limits (vec_len rules) (vec_len alternatives) (vec_len terms) (vec_len bytes) (vec_len code) ≡ false
        ] }
    {
        if rules.len() > 32 || alternatives.len() > 96 || terms.len() > 256 {
            return None;
        }
        if bytes.len() > 512 || code.len() > 1024 {
            return None;
        }
        Some(Sealed {
            rules,
            alternatives,
            terms,
            bytes,
            code,
        })
    }
}
