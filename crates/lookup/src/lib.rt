// What a name stands for: a rule or a reader, the latest call, an attribute. Looked up in the arenas of a draft.
#![tactic(auto)]

ghost use Rattle.std.specs.Prelude.{◌≡◌, ◌<◌, map, length, IfSome};
ghost use Rattle.std.specs.List.{list_any};
ghost use Rattle.arena.specs.Bounded.{stored};
ghost use Rattle.term.specs.Tables.{head, entry};
ghost use Rattle.names.specs.Names.{attribute_is};
ghost use Rattle.names.specs.Stored.{head_names, called_entry, sets_entry, is_name};
ghost use Rattle.lookup.specs.Lookup.{place_in, latest_in, among, callee};

use arena::{Arena, Term};
use fields::reader_number;
use names::attribute_named;
use term::{NamedTerm, Rule};

/// The number of the rule that has the name.
pub fn rule_number(rules: &[Rule], name: &[u8]) -> Option<usize>
    ensures value { result ≡ place_in (head_names (map head rules.now)) name.now }
    ensures bound { IfSome result (λ number. number < length rules.now) }
{
    rules.iter().position(|rule| rule.name.bytes() == name)
}

/// The number of the rule that has the name, or else of the reader.
pub fn callee(rules: &Arena<Rule, 33>, name: &[u8]) -> Option<u16>
    ensures { result ≡ callee (head_names (map head (stored rules.now))) name.now }
{
    rule_number(rules.as_slice(), name)
        .map(|number| number as u16)
        .or_else(|| reader_number(name))
}

// Whether a term is a call of the name.
fn calls(term: &NamedTerm, name: &[u8]) -> bool
    ensures { result ≡ is_name (called_entry (entry term.now)) name.now }
{
    matches!(term, Term::Call(other, _) if other.bytes() == name)
}

/// The place of the latest call of the name.
pub fn latest_call(terms: &[NamedTerm], name: &[u8]) -> Option<usize>
    ensures { result ≡ latest_in (map called_entry (map entry terms.now)) name.now }
{
    terms.iter().rposition(|term| calls(term, name))
}

/// Whether one of the terms sets the attribute.
pub fn sets_attribute(terms: &[NamedTerm], name: &[u8]) -> bool
    ensures named { result ≡ list_any (attribute_is name.now) (map entry terms.now) }
    ensures set { result ≡ among (map sets_entry (map entry terms.now)) name.now }
{
    attribute_named(terms, name)
}
