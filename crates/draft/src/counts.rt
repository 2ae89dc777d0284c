ghost use Rattle.std.specs.Prelude.{◌≡◌};
ghost use Rattle.term.specs.Tables.{tables};
ghost use Rattle.draft.specs.Cutting.{sizes_of};
ghost use Rattle.draft.specs.Limits.{few_enough};

use term::Arenas;

/// How many rules, alternatives, terms, literal bytes, and parts and operators of expressions.
#[derive(Clone, Copy, PartialEq, Eq, Debug)]
pub struct Counts {
    pub rules: usize,
    pub alternatives: usize,
    pub terms: usize,
    pub bytes: usize,
    pub parts: usize,
}

// The most that a draft holds.
const LIMITS: Counts = Counts {
    rules: 32,
    alternatives: 96,
    terms: 256,
    bytes: 512,
    parts: 1024,
};

impl Counts {
    /// What stands in arenas.
    pub fn of(arenas: &Arenas) -> Counts
        ensures { result ≡ sizes_of (tables arenas.now) }
    {
        Counts {
            rules: arenas.rules.len(),
            alternatives: arenas.alternatives.len(),
            terms: arenas.terms.len(),
            bytes: arenas.bytes.len(),
            parts: arenas.code.len(),
        }
    }

    /// Whether no limit is passed.
    pub fn fit(self) -> bool
        ensures { result ≡ few_enough self }
    {
        self.rules <= LIMITS.rules
            && self.alternatives <= LIMITS.alternatives
            && self.terms <= LIMITS.terms
            && self.bytes <= LIMITS.bytes
            && self.parts <= LIMITS.parts
    }
}
