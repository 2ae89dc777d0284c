// Alternatives and rules of a grammar text, read token by token into arenas.
#![tactic(auto)]

ghost use Rattle.std.specs.Prelude.{◌≡◌, OnOk, OnErr};
ghost use Rattle.token.specs.Ahead.{Advances, AdvancesOrStays};
ghost use Rattle.term.specs.Reading.{Adds};
ghost use Rattle.term.specs.Tables.{tables};
ghost use Rattle.rule.specs.Form.{branch_end, rules_at};
ghost use Rattle.rule.specs.Emission.{emit_all, emit_rule};
ghost use Rattle.rule.specs.Reading.{Ends};

use expr::{Refusal, take};
use operators::Op;
use term::Arenas;
use token::{Mark, Token, Tokens};

mod item;
mod items;

use item::add_all;
use items::Rules;

/// What ends an alternative: `;` after the last one, and else `/`. Whether it was the last.
fn branch_end(tokens: &mut Tokens) -> Result<bool, Refusal>
    ensures told { Ends result (branch_end tokens.old.end tokens.old.left) tokens.new.left }
    ensures moves { OnOk result (Advances tokens.old tokens.new) }
    ensures kept { AdvancesOrStays tokens.old tokens.new }
{
    let first = take(tokens)?;
    match first.token {
        Token::Operator(Op::Divide) => Ok(false),
        Token::Mark(Mark::Semicolon) => Ok(true),
        _ => Err(Refusal::Form(first.place)),
    }
}

/// One or more rules, up to the end of the text. A refusal leaves the tokens where they stood.
pub fn add_rules(tokens: &mut Tokens, out: &mut Arenas) -> Result<(), Refusal>
    ensures told { Adds result (rules_at tokens.old.end tokens.old.left) tokens.new.left (emit_all emit_rule) (tables out.old) (tables out.new) }
    ensures moves { OnOk result (Advances tokens.old tokens.new) }
    ensures kept { AdvancesOrStays tokens.old tokens.new }
    ensures stays { OnErr result (tokens.new ≡ tokens.old) }
{
    let mut ahead = tokens.fork();
    add_all::<Rules>(&mut ahead, out)?;
    *tokens = ahead;
    Ok(())
}
