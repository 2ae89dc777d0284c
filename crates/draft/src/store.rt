ghost use Rattle.std.specs.Prelude.{◌≡◌, ◌≤◌, length};
ghost use Rattle.term.specs.Tables.{tables};
ghost use Rattle.draft.specs.Reach.{most, code_end, bytes_end, span_end, head_end};
ghost use Rattle.draft.specs.Shown.{rules_of};
ghost use Rattle.draft.specs.Limits.{counts};

use super::load::load;
use super::refused::Refused;
use std::alloc::{AllocError, Global};
use term::Arenas;

/// The rules that were read. No part that an arena tells reaches past what stands there, and each arena holds what the rules take of it and no more.
#[derive(Drop)]
pub struct Draft {
    arenas: Arenas,
    ghost expressions: { most code_end (tables arenas).terms ≤ length (tables arenas).code },
    ghost literals: { most bytes_end (tables arenas).terms ≤ length (tables arenas).bytes },
    ghost alternatives: { most span_end (tables arenas).alternatives ≤ length (tables arenas).terms },
    ghost rules: { most head_end (tables arenas).rules ≤ length (tables arenas).alternatives },
    ghost rulecount: { length (tables arenas).rules ≡ (counts (rules_of (tables arenas))).rules },
    ghost branchcount: { length (tables arenas).alternatives ≡ (counts (rules_of (tables arenas))).alternatives },
    ghost termcount: { length (tables arenas).terms ≡ (counts (rules_of (tables arenas))).terms },
    ghost bytecount: { length (tables arenas).bytes ≡ (counts (rules_of (tables arenas))).bytes },
    ghost partcount: { length (tables arenas).code ≡ (counts (rules_of (tables arenas))).parts },
}

impl Draft {
    ghost use Rattle.std.specs.Prelude.{[], IfOk};
    ghost use Rattle.draft.specs.Held.{held};
    ghost use Rattle.draft.specs.Loading.{answer, after, outcome};

    /// A draft without rules. This call takes all the memory that the draft will ever need.
    pub fn new(heap: Global) -> Result<Draft, AllocError>
        ensures { IfOk result (λ d. held d ≡ []) }
    {
        let arenas = Arenas::new(heap)?;
        Ok(Draft { arenas })
    }

    /// Adds the rules of a text, numbered on; names are not looked at. A refusal leaves the rules as they were.
    pub fn append(&mut self, text: &[u8]) -> Result<(), Refused>
        ensures told { result ≡ outcome (answer (held self.old) text.now) }
        ensures rules { held self.new ≡ after (held self.old) (answer (held self.old) text.now) }
    {
        load(text, &mut self.arenas)
    }
}
