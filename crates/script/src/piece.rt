ghost use Rattle.std.specs.Prelude.{◌≡◌, ◌<◌, length};
ghost use Rattle.script.specs.Pieces.{until, after, trimmed, word, after_word};

const SPACE: u8 = 0x20;

const LINE_END: u8 = 0x0A;

/// A text cut at the first separator: what stands before it, and what comes after it.
#[derive(Clone, Copy)]
pub struct Cut<'a> {
    pub piece: &'a [u8],
    pub rest: &'a [u8],
}

fn cut_at(text: &[u8], separator: u8) -> Cut<'_>
    ensures piece { result.piece.now ≡ until separator text.now }
    ensures rest { result.rest.now ≡ after separator text.now }
{
    match text.iter().position(|b| *b == separator) {
        Some(at) => Cut {
            piece: &text[..at],
            rest: &text[at + 1..],
        },
        None => Cut {
            piece: text,
            rest: &[],
        },
    }
}

/// The first line of a text, without its end, and what follows it.
#[tactic(auto, using(crate::proofs::Cutting::after_shorter))]
pub fn cut_line(text: &[u8]) -> Cut<'_>
    ensures piece { result.piece.now ≡ until 0x0A text.now }
    ensures rest { result.rest.now ≡ after 0x0A text.now }
    ensures shorter { 0 < length text.now → length result.rest.now < length text.now }
{
    cut_at(text, LINE_END)
}

/// The lines of a text, from the first on; each comes with what follows it.
#[derive(Drop)]
pub struct Lines<'a> {
    /// What is left of the text.
    pub rest: &'a [u8],
}

impl<'a> Lines<'a> {
    pub fn new(text: &'a [u8]) -> Lines<'a>
        ensures { result.rest.now ≡ text.now }
    {
        Lines { rest: text }
    }
}

impl<'a> Iterator for Lines<'a> {
    ghost use Rattle.std.specs.Iterator.{at_most};
    ghost use Rattle.script.specs.Lines.{TakesLine};

    type Item = Cut<'a>;

    ghost next_gives = { λ s r t. TakesLine s.rest.now r t.rest.now };

    ghost remaining = { λ s. at_most (length s.rest.now) };

    fn next(&mut self) -> Option<Cut<'a>> {
        if self.rest.is_empty() {
            return None;
        }
        let cut = cut_line(self.rest);
        self.rest = cut.rest;
        Some(cut)
    }
}

fn trim(text: &[u8]) -> &[u8]
    ensures { result.now ≡ trimmed text.now }
{
    let start = text.iter().position(|b| *b != SPACE).unwrap_or(text.len());
    &text[start..]
}

/// The first word of a line, empty where there is none, and what follows it.
pub fn cut_word(line: &[u8]) -> Cut<'_>
    ensures piece { result.piece.now ≡ word line.now }
    ensures rest { result.rest.now ≡ after_word line.now }
{
    cut_at(trim(line), SPACE)
}
