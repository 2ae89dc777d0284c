ghost use Rattle.std.specs.Prelude.{◌≡◌, take};
ghost use Rattle.term.specs.Tables.{tables, head};
ghost use Rattle.draft.specs.Shown.{alternatives_of, shown_rule};
ghost use Rattle.lookup.specs.Lookup.{slots_of};
ghost use Rattle.slots.specs.Tables.{listed};

use super::table::Slots;
use arena::Term;
use term::{Arenas, Rule};

/// The slots of a rule, nine at most.
pub fn slots_of(arenas: &Arenas, rule: &Rule) -> Slots
    ensures { listed result ≡ take 9 (slots_of (shown_rule (alternatives_of (tables arenas.now)) (head rule.now))) }
{
    let mut slots = Slots::none();
    let alternatives = rule.alternatives.of(arenas.alternatives.as_slice());
    for alternative in alternatives {
        for term in alternative.of(arenas.terms.as_slice()) {
            if let Term::Attribute((name, _), _) = term {
                slots.note(name);
            }
        }
    }
    slots
}
