ghost use Rattle.std.specs.Prelude.{◌≡◌, ◌+◌, ◌*◌, ◌^◌, ◌<◌, ◌≤◌, drop, length, SomeIff, IfOk, IfSome};
ghost use Rattle.token.specs.declared.scan.Turn.TheVariants as turn;
ghost use Rattle.token.specs.Tokens.{lexeme, width_of, word_of, allowed_body, lexed, Standing, resumed, after, Moves, found, Spans, NextIs};

use super::{Class, Placed, Token, class_of};
use operators::Op;
use strings::decoded_len;

/// A place that has no token.
#[derive(Clone, Copy, PartialEq, Eq, Debug)]
pub struct NoToken {
    pub place: usize,
}

/// The most bytes that a name has.
const NAME_LIMIT: usize = 24;

/// Where the reader stands, with the place at which the open token began, and the value of the digits so far.
#[derive(Clone, Copy)]
enum State {
    Between,
    InName(usize),
    InNumber(usize, u64),
    InText(usize),
}

/// What one step gives.
enum Turn<'a> {
    /// The byte belongs to what is open, or opens it.
    Go(State),
    /// A token, with the place after it.
    Made(Placed<'a>, usize),
    End,
}

/// A token that was read at a place, with the place after it.
fn made<'a>(place: usize, token: Token<'a>, to: usize) -> Turn<'a>
    ensures { result ≡ turn.Made (record { place = place; token = token.entry }) to }
{
    Turn::Made(Placed { place, token }, to)
}

/// A number with one more decimal digit, unless it is too large.
fn with_digit(n: u64, digit: u8) -> Option<u64>
    ensures { SomeIff result (n * 10 + digit < 2 ^ 64) (n * 10 + digit) }
{
    n.checked_mul(10)?.checked_add(u64::from(digit))
}

/// The token that a word is.
fn word(w: &[u8]) -> Token<'_>
    ensures { lexeme result ≡ word_of w.now }
{
    match w {
        b"EOI" => Token::Eoi,
        b"guard" => Token::Guard,
        _ => Token::Name(w),
    }
}

/// Whether a string may have the body: it gives 1 to 16 bytes.
fn allowed(body: &[u8]) -> bool
    ensures { result ≡ allowed_body body.now }
{
    decoded_len(body).is_some_and(|n| (1..=16).contains(&n))
}

/// How many bytes an operator has.
fn width(op: Op) -> usize
    ensures { result ≡ width_of op }
{
    match op {
        Op::Shift => 2,
        _ => 1,
    }
}

/// What the byte at a place does to a reader that stands there.
#[tactic(auto, using(crate::proofs::Turns::turns))]
fn step<'a>(text: &'a [u8], state: State, at: usize) -> Result<Turn<'a>, NoToken>
    requires { Standing text.now state at }
    ensures reads { resumed text.now state at ≡ after text.now at result }
    ensures moves { IfOk result (Moves text.now state at) }
{
    match (state, class_of(&text[at..])) {
        (State::Between, Class::End) => Ok(Turn::End),
        (State::Between, Class::Space) => Ok(Turn::Go(State::Between)),
        (State::Between, Class::Letter) => Ok(Turn::Go(State::InName(at))),
        (State::Between, Class::Digit(d)) => Ok(Turn::Go(State::InNumber(at, u64::from(d)))),
        (State::Between, Class::Quote) => Ok(Turn::Go(State::InText(at))),
        (State::Between, Class::Mark(mark)) => Ok(made(at, Token::Mark(mark), at + 1)),
        (State::Between, Class::Operator(op)) => Ok(made(at, Token::Operator(op), at + width(op))),
        (State::Between, Class::Low | Class::Other) => Err(NoToken { place: at }),
        (State::InName(from), Class::Letter | Class::Digit(_) | Class::Low) => {
            if at - from >= NAME_LIMIT {
                return Err(NoToken { place: from });
            }
            Ok(Turn::Go(State::InName(from)))
        }
        (State::InName(from), _) => Ok(made(from, word(&text[from..at]), at)),
        (State::InNumber(from, n), Class::Digit(d)) => {
            let n = with_digit(n, d).ok_or(NoToken { place: from })?;
            Ok(Turn::Go(State::InNumber(from, n)))
        }
        (State::InNumber(from, n), _) => Ok(made(from, Token::Number(n), at)),
        (State::InText(from), Class::End) => Err(NoToken { place: from }),
        (State::InText(from), Class::Quote) => {
            let body = &text[from + 1..at];
            if !allowed(body) {
                return Err(NoToken { place: from });
            }
            Ok(made(from, Token::Text(body), at + 1))
        }
        (State::InText(from), _) => Ok(Turn::Go(State::InText(from))),
    }
}

/// The next token from a place on, with the place after it; none where only separators are left.
pub fn scan<'a>(text: &'a [u8], from: usize) -> Result<Option<(Placed<'a>, usize)>, NoToken>
    requires { from ≤ length text.now }
    ensures reads { lexed from (drop from text.now) ≡ found text.now result }
    ensures moves { IfOk result (λ found. IfSome found (λ x. Spans text.now from (lexeme x.0.token) x.1)) }
{
    let mut state = State::Between;
    let mut at = from;
    loop {
        match step(text, state, at)? {
            Turn::Go(next) => {
                state = next;
                at += 1;
            }
            Turn::Made(token, to) => return Ok(Some((token, to))),
            Turn::End => return Ok(None),
        }
    }
}

/// The same, where the tokens end before what is no token.
pub fn next_from<'a>(text: &'a [u8], at: usize) -> Option<(Placed<'a>, usize)>
    requires { at ≤ length text.now }
    ensures { NextIs text.now at result }
{
    scan(text, at).unwrap_or(None)
}
