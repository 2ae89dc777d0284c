ghost use Rattle.std.specs.Prelude.{◌≡◌, ◌≤◌, cond, [], length};
ghost use Rattle.input.specs.Bytes.{Shown, longest, slice_of, byte_at};
ghost use Rattle.input.specs.Numbers.{slice_answer};

use crate::Input;
use crate::refusal::Refusal;

/// The most bytes that an input shows.
pub const LONGEST: usize = 16_777_216;

/// An input that shows the caller's bytes.
#[derive(Clone, Copy)]
pub struct SliceInput<'a> {
    bytes: &'a [u8],
    ghost fits: { length bytes.now ≤ longest },
}

impl<'a> SliceInput<'a> {
    /// Tells whether the bytes would be refused, before the input is made.
    pub fn test(bytes: &[u8]) -> Result<(), Refusal>
        ensures { result ≡ slice_answer (length bytes.now) }
    {
        if bytes.len() <= LONGEST {
            Ok(())
        } else {
            Err(Refusal::SliceLength)
        }
    }

    /// Shows the bytes; where `test` refuses them, the empty list.
    pub fn new(bytes: &'a [u8]) -> SliceInput<'a>
        ensures { result.bytes.now ≡ slice_of bytes.now }
    {
        match SliceInput::test(bytes) {
            Ok(()) => SliceInput { bytes },
            Err(_) => SliceInput { bytes: &[] },
        }
    }
}

impl<'a> Input for SliceInput<'a> {
    ghost shown = { λ s. record { bytes = s.bytes.now; short = s.fits } };

    fn len(&self) -> usize {
        self.bytes.len()
    }

    fn byte(&self, place: usize) -> Option<u8> {
        self.bytes.get(place).copied()
    }
}
