ghost use Rattle.std.specs.Prelude.{◌≡◌};
ghost use Rattle.stack.specs.Refusals.{refusal_number};

use answers::Numbered;

/// Why a stack refused a call.
#[derive(Clone, Copy, PartialEq, Eq, Debug)]
pub enum StackRefusal {
    /// A push onto a stack whose slots are all held.
    Full,
    /// A pop from a stack that holds nothing.
    Empty,
}

impl Numbered for StackRefusal {
    ghost listed = { refusal_number };

    fn number(&self) -> u8 {
        match self {
            StackRefusal::Full => 28,
            StackRefusal::Empty => 29,
        }
    }
}
