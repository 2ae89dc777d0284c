ghost use Rattle.std.specs.Prelude.{◌≡◌};
ghost use Rattle.term.specs.Tables.{tables};
ghost use Rattle.draft.specs.Cutting.{cut_to};
ghost use Rattle.draft.specs.Loading.{ReadsForm, Reads, Loads};

use super::counts::Counts;
use super::refused::Refused;
use rule::add_rules;
use term::Arenas;
use token::{Tokens, bad_token};

// The most bytes that a text has.
const TEXT_LIMIT: usize = 65536;

// Cuts the arenas back to lengths that they had.
fn cut(arenas: &mut Arenas, lengths: Counts)
    ensures { tables arenas.new ≡ cut_to (tables arenas.old) lengths }
{
    arenas.rules.truncate(lengths.rules);
    arenas.alternatives.truncate(lengths.alternatives);
    arenas.terms.truncate(lengths.terms);
    arenas.bytes.truncate(lengths.bytes);
    arenas.code.truncate(lengths.parts);
}

// Adds the rules of a text whose tokens are sound, as far as form and limits go; after a refusal more may stand in the arenas.
fn read(text: &[u8], out: &mut Arenas) -> Result<(), Refused>
    ensures { Reads text.now result (tables out.old) (tables out.new) }
{
    add_rules(&mut Tokens::new(text), out)?;
    if Counts::of(out).fit() {
        Ok(())
    } else {
        Err(Refused::Limit)
    }
}

// The same, where a refusal leaves the arenas as they were.
fn form(text: &[u8], out: &mut Arenas) -> Result<(), Refused>
    ensures { ReadsForm text.now result (tables out.old) (tables out.new) }
{
    let before = Counts::of(out);
    let answer = read(text, out);
    if answer.is_err() {
        cut(out, before);
    }
    answer
}

/// Adds the rules of a text; the causes of a refusal are tested in their order.
pub fn load(text: &[u8], out: &mut Arenas) -> Result<(), Refused>
    ensures { Loads text.now result (tables out.old) (tables out.new) }
{
    if text.len() > TEXT_LIMIT {
        return Err(Refused::TooLong);
    }
    if let Some(place) = bad_token(text) {
        return Err(Refused::Token(place));
    }
    form(text, out)
}
