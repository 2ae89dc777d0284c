ghost use Rattle.std.specs.Prelude.{ℕ, Bool, List, length, OnOk};
ghost use Rattle.token.specs.Tokens.{Tok};
ghost use Rattle.token.specs.Ahead.{Advances, AdvancesOrStays};
ghost use Rattle.expr.specs.Reading.{Read};
ghost use Rattle.term.specs.Reading.{Adds};
ghost use Rattle.term.specs.Tables.{Tables, Kept, tables};
ghost use Rattle.rule.specs.Form.{several};
ghost use Rattle.rule.specs.Emission.{emit_all};
ghost use Rattle.rule.specs.Reading.{AddsItem};

use expr::Refusal;
use term::Arenas;
use token::Tokens;

/// What a text has one or more of, one after another.
pub trait Item {
    ghost Tree: { Type 0 };

    ghost form: { ℕ → List Tok → Read (Tree × Bool) };

    ghost emit: { Tables → Tree → Tables };

    /// Reads one and adds it, and tells whether it is the last.
    fn add(tokens: &mut Tokens, out: &mut Arenas) -> Result<bool, Refusal>
        ensures told { AddsItem result (form tokens.old.end tokens.old.left) tokens.new.left emit (tables out.old) (tables out.new) }
        ensures moves { OnOk result (Advances tokens.old tokens.new) }
        ensures kept { AdvancesOrStays tokens.old tokens.new };

    ghost keeps: { (T : Tables) (x : Tree) → Kept T (emit T x) };
}

/// One item after another, up to the last.
pub fn add_all<I: Item>(tokens: &mut Tokens, out: &mut Arenas) -> Result<(), Refusal>
    ensures told { Adds result (several (I.form tokens.old.end) (length tokens.old.left) tokens.old.left) tokens.new.left (emit_all I.emit) (tables out.old) (tables out.new) }
    ensures moves { OnOk result (Advances tokens.old tokens.new) }
    ensures kept { AdvancesOrStays tokens.old tokens.new }
{
    loop {
        let last = I::add(tokens, out)?;
        if last {
            return Ok(());
        }
    }
}
