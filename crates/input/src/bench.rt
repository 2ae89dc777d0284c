ghost use Rattle.std.specs.Prelude.{◌≡◌, ◌≤◌, length};

use crate::Input;
use crate::patch::Patch;
use crate::refusal::Refusal;

const MOST_PATCHES: usize = 32;

/// The patch layer: an input that shows another with patches written over it. Of `table` the first `count` stand, oldest first.
#[derive(Drop)]
pub struct Bench<I> {
    below: I,
    table: [Patch; MOST_PATCHES],
    count: usize,
    ghost few: { count ≤ 32 },
    ghost whole: { length table ≡ 32 },
}

impl<I: Input> Bench<I> {
    ghost use Rattle.std.specs.Prelude.{[]};
    ghost use Rattle.input.specs.Errata.{patch_answer, patched, undo_answer, undone};
    ghost use Rattle.input.specs.Benches.{errata};

    /// A new bench on an input: it has no errata.
    pub fn new(below: I) -> Bench<I>
        ensures below { result.below ≡ below }
        ensures errata { errata result ≡ [] }
    {
        Bench {
            below,
            table: Default::default(),
            count: 0,
        }
    }

    /// Shows `bytes` from `place` on.
    pub fn patch(&mut self, place: usize, bytes: &[u8]) -> Result<(), Refusal>
        ensures answer { result ≡ patch_answer (length (I.Input.shown self.old.below).bytes) (errata self.old) place bytes.now }
        ensures errata { errata self.new ≡ patched (length (I.Input.shown self.old.below).bytes) (errata self.old) place bytes.now }
        ensures below { self.new.below ≡ self.old.below }
    {
        let patch = Patch::new(place, bytes)?;
        let end = self.below.len();
        if place > end || bytes.len() > end - place {
            return Err(Refusal::PatchPlace);
        }
        if self.count == MOST_PATCHES {
            return Err(Refusal::PatchesFull);
        }
        let i = self.count;
        let table = &mut self.table;
        let entry = &mut table[i];
        *entry = patch;
        self.count = i + 1;
        Ok(())
    }

    /// Takes the latest patch off, and blanks its entry, which can be used again.
    pub fn undo(&mut self) -> Result<(), Refusal>
        ensures answer { result ≡ undo_answer (errata self.old) }
        ensures errata { errata self.new ≡ undone (errata self.old) }
        ensures below { self.new.below ≡ self.old.below }
    {
        if self.count == 0 {
            return Err(Refusal::NoPatch);
        }
        let i = self.count - 1;
        let table = &mut self.table;
        let entry = &mut table[i];
        *entry = Patch::default();
        self.count = i;
        Ok(())
    }

    /// Ends the bench and gives back the input below.
    pub fn into_below(self) -> I
        ensures { result ≡ self.below }
    {
        let Bench {
            below,
            table: _,
            count: _,
        } = self;
        below
    }
}

impl<I: Input> Input for Bench<I> {
    ghost use Rattle.input.specs.Benches.{errata, bench_shown};

    ghost shown = { λ s. bench_shown (I.Input.shown s.below) (errata s) };

    fn len(&self) -> usize {
        self.below.len()
    }

    fn byte(&self, place: usize) -> Option<u8> {
        let own = self.below.byte(place)?;
        let shown = self.table[..self.count]
            .iter()
            .fold(own, |shown, patch| patch.at(place).unwrap_or(shown));
        Some(shown)
    }
}
