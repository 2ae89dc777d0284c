ghost use Rattle.std.specs.Prelude.{◌≡◌, [], map, length, option_map, slice_get, slice_index_or};
ghost use Rattle.arena.specs.Parts.{part};
ghost use Rattle.sealed.specs.Grammars.{grammar_of, term_in, terms_of};

use super::Sealed;
use crate::code::Code;
use arena::{Span, Term};

impl Sealed {
    /// How many rules there are.
    #[tactic(auto, using(crate::proofs::Grammars::rules_counted))]
    pub fn rule_count(&self) -> usize
        ensures { result ≡ length (grammar_of self.now) }
    {
        self.rules.len()
    }

    // The alternatives of a rule; a rule that there is not has none.
    #[tactic(auto, using(crate::proofs::Grammars::rule_some, crate::proofs::Grammars::rule_none))]
    fn alternatives_of(&self, rule: u16) -> &[Span]
        ensures { map (λ s. part s (terms_of self.now)) result.now ≡ slice_index_or (grammar_of self.now) rule [] }
    {
        match self.rules.get(usize::from(rule)) {
            Some(span) => span.of(self.alternatives.as_slice()),
            None => &[],
        }
    }

    /// How many terms the `i`-th alternative of a rule has, if there is one.
    #[tactic(auto, using(crate::proofs::Grammars::count_none, crate::proofs::Grammars::count_some))]
    pub fn term_count(&self, rule: u16, i: usize) -> Option<usize>
        ensures { result ≡ option_map length (slice_get (slice_index_or (grammar_of self.now) rule []) i) }
    {
        let span = self.alternatives_of(rule).get(i)?;
        Some(span.of(self.terms.as_slice()).len())
    }

    /// The term at a place of the `i`-th alternative of a rule, if there is one.
    #[tactic(auto, using(crate::proofs::Grammars::term_none, crate::proofs::Grammars::term_some))]
    pub fn term(&self, rule: u16, i: usize, place: usize) -> Option<Term<u16, usize>>
        ensures { option_map (term_in self.now) result ≡ slice_get (slice_index_or (slice_index_or (grammar_of self.now) rule []) i []) place }
    {
        let span = self.alternatives_of(rule).get(i)?;
        span.of(self.terms.as_slice()).get(place).copied()
    }

    /// The bytes that a span tells.
    pub fn bytes_of(&self, span: Span) -> &[u8]
        ensures { result.now ≡ part span self.now.bytes.items }
    {
        span.of(self.bytes.as_slice())
    }

    /// The code that a span tells.
    pub fn code_of(&self, span: Span) -> &[Code]
        ensures { result.now ≡ part span self.now.code.items }
    {
        span.of(self.code.as_slice())
    }
}
