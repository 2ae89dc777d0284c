// Names that may not stand where they do: looked for in the arenas of a draft.
#![tactic(auto)]

ghost use Rattle.std.specs.Prelude.{◌≡◌};
ghost use Rattle.std.specs.List.{list_any};
ghost use Rattle.term.specs.Tables.{head, entry};
ghost use Rattle.names.specs.Names.{rule_is, attribute_is, reserved};

use arena::Term;
use term::{NamedTerm, Rule};

/// Whether no attribute may have the name, since it is that of an end of a call.
pub fn is_reserved(name: &[u8]) -> bool
    ensures { result ≡ reserved name.now }
{
    matches!(name, b"start" | b"end")
}

/// Whether one of the rules has the name.
pub fn rule_named(rules: &[Rule], name: &[u8]) -> bool
    ensures { result ≡ list_any (λ r. rule_is name.now (head r)) rules.now }
{
    rules.iter().any(|rule| rule.name.bytes() == name)
}

/// Whether a term sets the attribute of the name.
pub fn is_attribute(term: &NamedTerm, name: &[u8]) -> bool
    ensures { result ≡ attribute_is name.now (entry term.now) }
{
    matches!(term, Term::Attribute((other, _), _) if other.bytes() == name)
}

/// Whether one of the terms sets the attribute of the name.
pub fn attribute_named(terms: &[NamedTerm], name: &[u8]) -> bool
    ensures { result ≡ list_any (λ t. attribute_is name.now (entry t)) terms.now }
{
    terms.iter().any(|term| is_attribute(term, name))
}
