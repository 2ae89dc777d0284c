ghost use Rattle.std.specs.Prelude.{◌≡◌, ◌≤◌, length, min};
ghost use Rattle.std.specs.Iterator.{item_count};
ghost use Rattle.token.specs.Tokens.{tokens_at};
ghost use Rattle.token.specs.Ahead.{Ahead, ahead, Takes, Peeks};

use super::Placed;
use super::scan::next_from;
use std::marker::Model;

/// The tokens of a text from a place on. They end before what is no token.
#[derive(Drop)]
pub struct Tokens<'a> {
    text: &'a [u8],
    at: usize,
}

impl<'a> Model for Tokens<'a> {
    ghost Value = { Ahead };

    ghost view = { λ t. ahead t.text.now t.at };

    ghost invariant = { λ t. t.at ≤ length t.text.now };
}

impl<'a> Tokens<'a> {
    /// All the tokens of a text.
    pub fn new(text: &'a [u8]) -> Tokens<'a>
        ensures { result ≡ ahead text.now 0 }
    {
        Tokens { text, at: 0 }
    }

    /// The tokens from a place on; none where the text ends before it.
    pub fn starting_at(text: &'a [u8], at: usize) -> Tokens<'a>
        ensures stands { result ≡ ahead text.now (min at (length text.now)) }
        ensures left { result.left ≡ tokens_at text.now at }
    {
        let at = at.min(text.len());
        Tokens { text, at }
    }

    /// The length of the text.
    pub fn end(&self) -> usize
        ensures { result ≡ self.now.end }
    {
        self.text.len()
    }

    /// Where the reader of the text stands: before the separators and the token that are next.
    pub fn place(&self) -> usize
        ensures { result ≡ self.now.place }
    {
        self.at
    }

    /// The same tokens once more: reading the one leaves the other where it stands.
    pub fn fork(&self) -> Tokens<'a>
        ensures { result ≡ self.now }
    {
        Tokens {
            text: self.text,
            at: self.at,
        }
    }

    /// The next token, which stays there.
    pub fn peek(&self) -> Option<Placed<'a>>
        ensures { Peeks self.now result }
    {
        let (token, _) = next_from(self.text, self.at)?;
        Some(token)
    }
}

impl<'a> Iterator for Tokens<'a> {
    type Item = Placed<'a>;

    ghost next_gives = { Takes };

    ghost remaining = { item_count (λ t. t.left) };

    fn next(&mut self) -> Option<Placed<'a>> {
        let (token, to) = next_from(self.text, self.at)?;
        self.at = to;
        Some(token)
    }
}
