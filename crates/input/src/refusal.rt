ghost use Rattle.std.specs.Prelude.{◌≡◌};
ghost use Rattle.input.specs.Numbers.{refusal_number};

use answers::Numbered;

/// Why an input or a bench refused a call.
#[derive(Clone, Copy, PartialEq, Eq, Debug)]
pub enum Refusal {
    /// A slice of more than 2^24 bytes.
    SliceLength,
    /// A patch of no bytes, or of more than 8.
    PatchLength,
    /// A patch that would end past the list.
    PatchPlace,
    /// A patch where 32 stand.
    PatchesFull,
    /// An undo where no patch stands.
    NoPatch,
}

impl Numbered for Refusal {
    ghost listed = { refusal_number };

    fn number(&self) -> u8 {
        match self {
            Refusal::SliceLength => 20,
            Refusal::PatchLength => 30,
            Refusal::PatchPlace => 31,
            Refusal::PatchesFull => 32,
            Refusal::NoPatch => 33,
        }
    }
}
