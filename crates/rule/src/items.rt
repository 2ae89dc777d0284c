ghost use Rattle.std.specs.Prelude.{◌≡◌, List};
ghost use Rattle.term.specs.Form.{TermTree};
ghost use Rattle.term.specs.Tables.{emit_term};
ghost use Rattle.term.proofs.Puts.{term_kept};
ghost use Rattle.rule.specs.Form.{RuleTree, at_stop, none_left, term_item, alternative_at, rule_at};
ghost use Rattle.rule.specs.Emission.{emit_alternative, emit_rule};
ghost use Rattle.rule.specs.Keeping.{alternative_kept, rule_kept};

use super::branch_end;
use super::item::{Item, add_all};
use arena::Span;
use expr::{Refusal, mark, name};
use operators::Op;
use term::{Arenas, Rule, add_term};
use token::{Mark, Tokens};

/// Whether an alternative ends here.
fn stops(tokens: &Tokens) -> bool
    ensures { result ≡ at_stop tokens.now.left }
{
    tokens.peek().is_some_and(|next| {
        next.token.is_operator(Op::Divide) || next.token.is_mark(Mark::Semicolon)
    })
}

/// Terms, up to what ends their alternative.
pub struct Terms;

impl Item for Terms {
    ghost Tree = { TermTree };

    ghost form = { term_item };

    ghost emit = { emit_term };

    fn add(tokens: &mut Tokens, out: &mut Arenas) -> Result<bool, Refusal> {
        add_term(tokens, out)?;
        Ok(stops(tokens))
    }

    ghost keeps = { term_kept };
}

/// Alternatives of one or more terms, each with what ends it.
pub struct Alternatives;

impl Item for Alternatives {
    ghost Tree = { List TermTree };

    ghost form = { alternative_at };

    ghost emit = { emit_alternative };

    fn add(tokens: &mut Tokens, out: &mut Arenas) -> Result<bool, Refusal> {
        let from = out.terms.len();
        add_all::<Terms>(tokens, out)?;
        let to = out.terms.len();
        out.alternatives.put(Span { from, to });
        branch_end(tokens)
    }

    ghost keeps = { alternative_kept };
}

/// Rules by name, up to the end of the text.
pub struct Rules;

impl Item for Rules {
    ghost Tree = { RuleTree };

    ghost form = { rule_at };

    ghost emit = { emit_rule };

    fn add(tokens: &mut Tokens, out: &mut Arenas) -> Result<bool, Refusal> {
        let (called, place) = name(tokens)?;
        mark(tokens, Mark::Colon)?;
        let from = out.alternatives.len();
        add_all::<Alternatives>(tokens, out)?;
        let to = out.alternatives.len();
        out.rules.put(Rule {
            name: called,
            place,
            alternatives: Span { from, to },
        });
        Ok(tokens.peek().is_none())
    }

    ghost keeps = { rule_kept };
}
