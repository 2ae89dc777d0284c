// Expressions of a grammar text: read token by token, and written as code.
#![tactic(auto)]

ghost use Rattle.std.specs.Prelude.{◌≡◌, OnOk, OnErr};
ghost use Rattle.token.specs.Ahead.{Advances, AdvancesOrStays};
ghost use Rattle.code.specs.Names.{letters};
ghost use Rattle.code.specs.Pieces.{codes};
ghost use Rattle.expr.specs.Reading.{level_of, TakesOperator, field_at, ReadsField, Wrote, named_at, part_at, product_at, sum_at, operand_at, joined_at, expression_at};

use code::{Code, Codes, Name, emit};
use operators::Op;
use token::{Mark, Token, Tokens};

mod taking;

use taking::take_mark;
pub use taking::{mark, name, take};

/// The operators that bind alike.
#[derive(Clone, Copy, PartialEq, Eq, Debug)]
pub enum Level {
    Compare,
    Sum,
    Product,
}

/// Why a text is refused, with the place.
#[derive(Clone, Copy, PartialEq, Eq, Debug)]
pub enum Refusal {
    // a token against the form, or an early end
    Form(usize),
    // a bracket 17 deep
    Deep(usize),
}

fn level_of(op: Op) -> Level
    ensures { result ≡ level_of op }
{
    match op {
        Op::Equal | Op::Less => Level::Compare,
        Op::Plus | Op::Minus => Level::Sum,
        Op::Times | Op::Divide | Op::Remainder | Op::Shift => Level::Product,
    }
}

/// The operator of a level that stands next, if one does. It is taken.
fn operator(tokens: &mut Tokens, level: Level) -> Option<Op>
    ensures { TakesOperator level tokens.old result tokens.new }
{
    let mut ahead = tokens.fork();
    match ahead.next()?.token {
        Token::Operator(op) if level_of(op) == level => {
            *tokens = ahead;
            Some(op)
        }
        _ => None,
    }
}

/// The attribute named after a dot; none where no dot stands next.
fn field(tokens: &mut Tokens) -> Result<Option<Name>, Refusal>
    ensures told { ReadsField result (field_at tokens.old.end tokens.old.left) tokens.new.left }
    ensures moves { AdvancesOrStays tokens.old tokens.new }
{
    if !take_mark(tokens, Mark::Dot) {
        return Ok(None);
    }
    let (attribute, _) = name(tokens)?;
    Ok(Some(attribute))
}

/// The code of a name that was taken, or of the field that it is followed by.
fn named(tokens: &mut Tokens, name: Name, out: &mut Codes) -> Result<(), Refusal>
    ensures told { Wrote result (named_at tokens.old.end (letters name) tokens.old.left) tokens.new.left (codes out.old) (codes out.new) }
    ensures moves { AdvancesOrStays tokens.old tokens.new }
{
    match field(tokens)? {
        Some(attribute) => emit(out, Code::Field(name, attribute)),
        None => emit(out, Code::Name(name)),
    }
    Ok(())
}

#[cycle(expression)]
fn part(tokens: &mut Tokens, deeper: usize, out: &mut Codes) -> Result<(), Refusal>
    ensures told { Wrote result (part_at tokens.old.end deeper tokens.old.left) tokens.new.left (codes out.old) (codes out.new) }
    ensures moves { OnOk result (Advances tokens.old tokens.new) }
    ensures kept { AdvancesOrStays tokens.old tokens.new }
{
    let first = take(tokens)?;
    match first.token {
        Token::Number(n) => {
            emit(out, Code::Number(n));
            Ok(())
        }
        Token::Eoi => {
            emit(out, Code::Eoi);
            Ok(())
        }
        Token::Name(word) => named(tokens, Name::of(word), out),
        Token::Mark(Mark::Open) => {
            if deeper == 0 {
                return Err(Refusal::Deep(first.place));
            }
            expression(tokens, deeper - 1, out)?;
            mark(tokens, Mark::Close)?;
            emit(out, Code::Bracket);
            Ok(())
        }
        _ => Err(Refusal::Form(first.place)),
    }
}

/// What the operators of a level join.
#[cycle(expression)]
fn operand(tokens: &mut Tokens, level: Level, deeper: usize, out: &mut Codes) -> Result<(), Refusal>
    ensures told { Wrote result (operand_at level tokens.old.end deeper tokens.old.left) tokens.new.left (codes out.old) (codes out.new) }
    ensures moves { OnOk result (Advances tokens.old tokens.new) }
    ensures kept { AdvancesOrStays tokens.old tokens.new }
{
    match level {
        Level::Product => part(tokens, deeper, out),
        Level::Sum => product(tokens, deeper, out),
        Level::Compare => sum(tokens, deeper, out),
    }
}

/// Operands joined by the operators of a level, from the left.
#[cycle(expression)]
fn joined(tokens: &mut Tokens, level: Level, deeper: usize, out: &mut Codes) -> Result<(), Refusal>
    ensures told { Wrote result (joined_at level tokens.old.end deeper tokens.old.left) tokens.new.left (codes out.old) (codes out.new) }
    ensures moves { OnOk result (Advances tokens.old tokens.new) }
    ensures kept { AdvancesOrStays tokens.old tokens.new }
{
    operand(tokens, level, deeper, out)?;
    while let Some(op) = operator(tokens, level) {
        operand(tokens, level, deeper, out)?;
        emit(out, Code::Operator(op));
    }
    Ok(())
}

/// Parts joined by `*`, `/`, `%` and `<<`.
#[cycle(expression)]
fn product(tokens: &mut Tokens, deeper: usize, out: &mut Codes) -> Result<(), Refusal>
    ensures told { Wrote result (product_at tokens.old.end deeper tokens.old.left) tokens.new.left (codes out.old) (codes out.new) }
    ensures moves { OnOk result (Advances tokens.old tokens.new) }
    ensures kept { AdvancesOrStays tokens.old tokens.new }
{
    joined(tokens, Level::Product, deeper, out)
}

/// Products joined by `+` and `-`.
#[cycle(expression)]
fn sum(tokens: &mut Tokens, deeper: usize, out: &mut Codes) -> Result<(), Refusal>
    ensures told { Wrote result (sum_at tokens.old.end deeper tokens.old.left) tokens.new.left (codes out.old) (codes out.new) }
    ensures moves { OnOk result (Advances tokens.old tokens.new) }
    ensures kept { AdvancesOrStays tokens.old tokens.new }
{
    joined(tokens, Level::Sum, deeper, out)
}

/// An expression with at most `deeper` brackets open: its code is appended. A refusal leaves the tokens where they stood.
#[cycle(expression)]
pub fn expression(tokens: &mut Tokens, deeper: usize, out: &mut Codes) -> Result<(), Refusal>
    ensures told { Wrote result (expression_at tokens.old.end deeper tokens.old.left) tokens.new.left (codes out.old) (codes out.new) }
    ensures moves { OnOk result (Advances tokens.old tokens.new) }
    ensures kept { AdvancesOrStays tokens.old tokens.new }
    ensures stays { OnErr result (tokens.new ≡ tokens.old) }
{
    let mut ahead = tokens.fork();
    sum(&mut ahead, deeper, out)?;
    if let Some(op) = operator(&mut ahead, Level::Compare) {
        sum(&mut ahead, deeper, out)?;
        emit(out, Code::Operator(op));
    }
    *tokens = ahead;
    Ok(())
}
