// The tokens of a grammar text, each a part of the text with its place.
#![tactic(auto)]

ghost use Rattle.std.specs.Prelude.{◌≡◌};
ghost use Rattle.token.specs.Classes.{mark_class, byte_class, class_of};
ghost use Rattle.token.specs.Tokens.{lexeme, is_mark, is_operator, NextIs, bad_token};
ghost use Rattle.token.specs.Laid.{TokensStand};

use operators::Op;

mod scan;
mod tokens;

use scan::{NoToken, next_from, scan};
pub use tokens::Tokens;

#[derive(Clone, Copy, PartialEq, Eq, Debug)]
pub enum Mark {
    Colon,
    OpenSquare,
    CloseSquare,
    Open,
    Close,
    OpenCurly,
    CloseCurly,
    Comma,
    Semicolon,
    Dot,
}

#[derive(Clone, Copy, Debug)]
pub enum Token<'a> {
    Name(&'a [u8]),
    Text(&'a [u8]),
    Number(u64),
    Operator(Op),
    Mark(Mark),
    Eoi,
    Guard,
}

impl<'a> Token<'a> {
    /// Whether the token is the mark.
    pub fn is_mark(self, wanted: Mark) -> bool
        ensures { result ≡ is_mark wanted (lexeme self.entry) }
    {
        match self {
            Token::Mark(mark) => mark == wanted,
            _ => false,
        }
    }

    /// Whether the token is the operator.
    pub fn is_operator(self, wanted: Op) -> bool
        ensures { result ≡ is_operator wanted (lexeme self.entry) }
    {
        match self {
            Token::Operator(op) => op == wanted,
            _ => false,
        }
    }
}

#[derive(Clone, Copy, Debug)]
pub struct Placed<'a> {
    pub place: usize,
    pub token: Token<'a>,
}

// What the front of the remaining text is.
#[derive(Clone, Copy)]
enum Class {
    End,
    Space,
    Letter,
    Digit(u8),
    Low,
    Quote,
    Mark(Mark),
    Operator(Op),
    Other,
}

// The class of a mark of one byte.
fn mark_class(b: u8) -> Class
    ensures { result ≡ mark_class b }
{
    match b {
        b':' => Class::Mark(Mark::Colon),
        b'[' => Class::Mark(Mark::OpenSquare),
        b']' => Class::Mark(Mark::CloseSquare),
        b'(' => Class::Mark(Mark::Open),
        b')' => Class::Mark(Mark::Close),
        b'{' => Class::Mark(Mark::OpenCurly),
        b'}' => Class::Mark(Mark::CloseCurly),
        b',' => Class::Mark(Mark::Comma),
        b';' => Class::Mark(Mark::Semicolon),
        b'.' => Class::Mark(Mark::Dot),
        b'=' => Class::Operator(Op::Equal),
        b'<' => Class::Operator(Op::Less),
        b'+' => Class::Operator(Op::Plus),
        b'-' => Class::Operator(Op::Minus),
        b'*' => Class::Operator(Op::Times),
        b'/' => Class::Operator(Op::Divide),
        b'%' => Class::Operator(Op::Remainder),
        _ => Class::Other,
    }
}

#[tactic(auto, using(std::proofs::lemmas::Bool::Decides::nat_tests))]
fn byte_class(b: u8) -> Class
    ensures { result ≡ byte_class b }
{
    match b {
        b' ' | b'\t' | b'\n' => Class::Space,
        b'a'..=b'z' | b'A'..=b'Z' => Class::Letter,
        b'0'..=b'9' => Class::Digit(b - b'0'),
        b'_' => Class::Low,
        b'"' => Class::Quote,
        _ => mark_class(b),
    }
}

fn class_of(rest: &[u8]) -> Class
    ensures { result ≡ class_of rest.now }
{
    match rest {
        [] => Class::End,
        [b'<', b'<', ..] => Class::Operator(Op::Shift),
        [b, ..] => byte_class(*b),
    }
}

/// The next token from a place on, with the place after it; none at the end of the text or before what is no token.
pub fn next<'a>(text: &'a [u8], at: usize) -> Option<(Placed<'a>, usize)>
    ensures { NextIs text.now at result }
{
    if at > text.len() {
        return None;
    }
    next_from(text, at)
}

/// The first place of a text that has no token.
pub fn bad_token(text: &[u8]) -> Option<usize>
    ensures { result ≡ bad_token text.now }
{
    let mut at = 0;
    loop {
        match scan(text, at) {
            Ok(Some((_, to))) => at = to,
            Ok(None) => return None,
            Err(NoToken { place }) => return Some(place),
        }
    }
}

// A law. Of every text: before each token, and after the last one, stand only separators; each token is the longest at its place, and the next one stands after it.
pub fn tokens_stand()
    ensures { TokensStand }
{}
