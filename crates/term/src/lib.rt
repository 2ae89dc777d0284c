// Terms of a grammar text, read token by token into arenas.
#![tactic(auto)]

ghost use Rattle.std.specs.Prelude.{◌≡◌, OnOk, OnErr};
ghost use Rattle.token.specs.Ahead.{Advances, AdvancesOrStays};
ghost use Rattle.strings.specs.Decoding.{bytes_of};
ghost use Rattle.code.specs.Names.{letters};
ghost use Rattle.code.specs.Pieces.{codes};
ghost use Rattle.expr.specs.Reading.{Tells};
ghost use Rattle.term.specs.Form.{expr_at, equals_at, range_at, literal_at, call_at, attribute_at, guard_at, term_at};
ghost use Rattle.term.specs.Tables.{tables, emit_term};
ghost use Rattle.term.specs.Reading.{Spanned, Ranged, Adds};

use arena::{Ends, Span, Term};
use code::{Codes, Name};
use expr::{Refusal, expression, mark, name, take};
use operators::Op;
use strings::decode_into;
use token::{Mark, Token, Tokens};

mod arenas;

pub use arenas::{Arenas, NamedTerm, Rule};

// How deep the brackets of an expression nest at most.
const DEPTH: usize = 16;

/// Takes `=`, which has to stand next.
fn equals(tokens: &mut Tokens) -> Result<(), Refusal>
    ensures told { Tells result (equals_at tokens.old.end tokens.old.left) tokens.new.left }
    ensures moves { OnOk result (Advances tokens.old tokens.new) }
    ensures kept { AdvancesOrStays tokens.old tokens.new }
{
    let first = take(tokens)?;
    if first.token.is_operator(Op::Equal) {
        Ok(())
    } else {
        Err(Refusal::Form(first.place))
    }
}

/// An expression: the part of the code that it got.
fn value(tokens: &mut Tokens, out: &mut Codes) -> Result<Span, Refusal>
    ensures told { Spanned result (expr_at tokens.old.end tokens.old.left) tokens.new.left (codes out.old) (codes out.new) }
    ensures moves { OnOk result (Advances tokens.old tokens.new) }
    ensures kept { AdvancesOrStays tokens.old tokens.new }
{
    let from = out.len();
    expression(tokens, DEPTH, out)?;
    let to = out.len();
    Ok(Span { from, to })
}

/// `[e, e]`
fn range(tokens: &mut Tokens, out: &mut Codes) -> Result<Ends, Refusal>
    ensures told { Ranged result (range_at tokens.old.end tokens.old.left) tokens.new.left (codes out.old) (codes out.new) }
    ensures moves { OnOk result (Advances tokens.old tokens.new) }
    ensures kept { AdvancesOrStays tokens.old tokens.new }
{
    mark(tokens, Mark::OpenSquare)?;
    let left = value(tokens, out)?;
    mark(tokens, Mark::Comma)?;
    let right = value(tokens, out)?;
    mark(tokens, Mark::CloseSquare)?;
    Ok(Ends { left, right })
}

/// The window of a literal whose body was taken.
fn literal(tokens: &mut Tokens, body: &[u8], out: &mut Arenas) -> Result<(), Refusal>
    ensures told { Adds result (literal_at (bytes_of body.now) tokens.old.end tokens.old.left) tokens.new.left emit_term (tables out.old) (tables out.new) }
    ensures moves { OnOk result (Advances tokens.old tokens.new) }
    ensures kept { AdvancesOrStays tokens.old tokens.new }
{
    let ends = range(tokens, &mut out.code)?;
    let from = out.bytes.len();
    decode_into(body, &mut out.bytes);
    let to = out.bytes.len();
    out.terms.put(Term::Literal(Span { from, to }, ends));
    Ok(())
}

/// The window of a call whose name was taken.
fn call(tokens: &mut Tokens, called: Name, out: &mut Arenas) -> Result<(), Refusal>
    ensures told { Adds result (call_at (letters called) tokens.old.end tokens.old.left) tokens.new.left emit_term (tables out.old) (tables out.new) }
    ensures moves { OnOk result (Advances tokens.old tokens.new) }
    ensures kept { AdvancesOrStays tokens.old tokens.new }
{
    let ends = range(tokens, &mut out.code)?;
    out.terms.put(Term::Call(called, ends));
    Ok(())
}

/// `a = e}`, after the opening bracket.
fn attribute(tokens: &mut Tokens, out: &mut Arenas) -> Result<(), Refusal>
    ensures told { Adds result (attribute_at tokens.old.end tokens.old.left) tokens.new.left emit_term (tables out.old) (tables out.new) }
    ensures moves { OnOk result (Advances tokens.old tokens.new) }
    ensures kept { AdvancesOrStays tokens.old tokens.new }
{
    let called = name(tokens)?;
    equals(tokens)?;
    let span = value(tokens, &mut out.code)?;
    mark(tokens, Mark::CloseCurly)?;
    out.terms.put(Term::Attribute(called, span));
    Ok(())
}

/// `(e)`, after `guard`.
fn guard(tokens: &mut Tokens, out: &mut Arenas) -> Result<(), Refusal>
    ensures told { Adds result (guard_at tokens.old.end tokens.old.left) tokens.new.left emit_term (tables out.old) (tables out.new) }
    ensures moves { OnOk result (Advances tokens.old tokens.new) }
    ensures kept { AdvancesOrStays tokens.old tokens.new }
{
    mark(tokens, Mark::Open)?;
    let span = value(tokens, &mut out.code)?;
    mark(tokens, Mark::Close)?;
    out.terms.put(Term::Guard(span));
    Ok(())
}

// The same, where a refusal may leave the tokens further on.
fn read_term(tokens: &mut Tokens, out: &mut Arenas) -> Result<(), Refusal>
    ensures told { Adds result (term_at tokens.old.end tokens.old.left) tokens.new.left emit_term (tables out.old) (tables out.new) }
    ensures moves { OnOk result (Advances tokens.old tokens.new) }
    ensures kept { AdvancesOrStays tokens.old tokens.new }
{
    let first = take(tokens)?;
    match first.token {
        Token::Text(body) => literal(tokens, body, out),
        Token::Name(word) => call(tokens, Name::of(word), out),
        Token::Mark(Mark::OpenCurly) => attribute(tokens, out),
        Token::Guard => guard(tokens, out),
        _ => Err(Refusal::Form(first.place)),
    }
}

/// One term, which is appended to the terms. A refusal leaves the tokens where they stood.
pub fn add_term(tokens: &mut Tokens, out: &mut Arenas) -> Result<(), Refusal>
    ensures told { Adds result (term_at tokens.old.end tokens.old.left) tokens.new.left emit_term (tables out.old) (tables out.new) }
    ensures moves { OnOk result (Advances tokens.old tokens.new) }
    ensures kept { AdvancesOrStays tokens.old tokens.new }
    ensures stays { OnErr result (tokens.new ≡ tokens.old) }
{
    let mut ahead = tokens.fork();
    read_term(&mut ahead, out)?;
    *tokens = ahead;
    Ok(())
}
