// A list of calls met by a new bench: what the bench then holds and shows, and how each call was answered.
#![tactic(auto)]

ghost use Rattle.std.specs.Prelude.{◌≡◌, length};
ghost use Rattle.input.specs.Benches.{errata};
ghost use Rattle.input.specs.Errata.{shows};
ghost use Rattle.replay.specs.Calls.{answered, errata_then, errata_after, answers_after, written};
ghost use Rattle.replay.specs.Laws.{CallByCall, UndoTakesBack};

use arena::write_at;
use input::{Bench, Input, Refusal};

/// A call of a bench.
#[derive(Clone, Copy)]
pub enum Call<'a> {
    Patch { place: usize, bytes: &'a [u8] },
    Undo,
}

/// Meets one call.
pub fn meet<I: Input>(bench: &mut Bench<I>, call: Call) -> Result<(), Refusal>
    ensures answer { result ≡ answered (length (I.Input.shown bench.old.below).bytes) (errata bench.old) call.entry }
    ensures errata { errata bench.new ≡ errata_then (length (I.Input.shown bench.old.below).bytes) (errata bench.old) call.entry }
    ensures below { bench.new.below ≡ bench.old.below }
{
    match call {
        Call::Patch { place, bytes } => bench.patch(place, bytes),
        Call::Undo => bench.undo(),
    }
}

/// Makes a new bench on an input, which meets the calls in order. As many answers as fit are written to the front of `answers`.
pub fn replay<I: Input>(input: I, calls: &[Call], answers: &mut [Result<(), Refusal>]) -> Bench<I>
    ensures below { result.below ≡ input }
    ensures errata { errata result ≡ errata_after (length (I.Input.shown input).bytes) calls.now }
    ensures shown { shows (I.Input.shown result.below).bytes (errata result) ≡ shows (I.Input.shown input).bytes (errata_after (length (I.Input.shown input).bytes) calls.now) }
    ensures answers { answers.new ≡ written (answers_after (length (I.Input.shown input).bytes) calls.now) answers.old }
{
    let mut bench = Bench::new(input);
    for (i, call) in calls.iter().enumerate() {
        let met = meet(&mut bench, *call);
        write_at(answers, i, met);
    }
    bench
}

/// Laws over whole lists of calls: how one call more changes errata and answers, and that an undo takes an accepted patch back.
pub fn laws_of_calls()
    ensures more { CallByCall }
    ensures back { UndoTakesBack }
{}
