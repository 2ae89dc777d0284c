ghost use Rattle.std.specs.Prelude.{◌≡◌, OnOk, OnErr};
ghost use Rattle.token.specs.Ahead.{Advances, AdvancesOrStays};
ghost use Rattle.expr.specs.Reading.{Took, TakesMark, Tells, mark_at, Names, name_at};

use super::Refusal;
use code::Name;
use token::{Mark, Placed, Token, Tokens};

/// The next token, which is wanted: the end of the text is refused.
pub fn take<'a>(tokens: &mut Tokens<'a>) -> Result<Placed<'a>, Refusal>
    ensures { Took tokens.old result tokens.new }
{
    let end = tokens.end();
    tokens.next().ok_or(Refusal::Form(end))
}

/// Takes the next token if it is the mark, and tells whether it was.
pub fn take_mark(tokens: &mut Tokens, wanted: Mark) -> bool
    ensures { TakesMark wanted tokens.old result tokens.new }
{
    let mut ahead = tokens.fork();
    match ahead.next() {
        Some(first) if first.token.is_mark(wanted) => {
            *tokens = ahead;
            true
        }
        _ => false,
    }
}

/// Takes a mark, which has to stand next. A refusal leaves the tokens where they stood.
pub fn mark(tokens: &mut Tokens, wanted: Mark) -> Result<(), Refusal>
    ensures told { Tells result (mark_at wanted tokens.old.end tokens.old.left) tokens.new.left }
    ensures moves { OnOk result (Advances tokens.old tokens.new) }
    ensures kept { AdvancesOrStays tokens.old tokens.new }
    ensures stays { OnErr result (tokens.new ≡ tokens.old) }
{
    let mut ahead = tokens.fork();
    let first = take(&mut ahead)?;
    if first.token.is_mark(wanted) {
        *tokens = ahead;
        Ok(())
    } else {
        Err(Refusal::Form(first.place))
    }
}

/// Takes a name, which has to stand next, with its place. A refusal leaves the tokens where they stood.
pub fn name(tokens: &mut Tokens) -> Result<(Name, usize), Refusal>
    ensures told { Names result (name_at tokens.old.end tokens.old.left) tokens.new.left }
    ensures moves { OnOk result (Advances tokens.old tokens.new) }
    ensures kept { AdvancesOrStays tokens.old tokens.new }
    ensures stays { OnErr result (tokens.new ≡ tokens.old) }
{
    let mut ahead = tokens.fork();
    let first = take(&mut ahead)?;
    match first.token {
        Token::Name(word) => {
            *tokens = ahead;
            Ok((Name::of(word), first.place))
        }
        _ => Err(Refusal::Form(first.place)),
    }
}
