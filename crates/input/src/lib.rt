// Inputs: lists of bytes that can be asked for their length and their bytes, and the layers over them.
#![tactic(auto)]

ghost use Rattle.std.specs.Prelude.{◌≡◌, length};
ghost use Rattle.input.specs.Bytes.{Shown, byte_at};

pub mod bench;
pub mod laws;
mod patch;
pub mod refusal;
pub mod slice;
pub mod window;

pub use bench::Bench;
pub use refusal::Refusal;
pub use slice::SliceInput;
pub use window::{Window, WindowInput};

/// An input means a list of at most 2^24 bytes, `shown`. Whoever writes a new one shows these two calls and nothing else.
pub trait Input {
    ghost shown: { Self → Shown };

    /// The length of the list.
    fn len(&self) -> usize
        ensures { result ≡ length (shown self.now).bytes };

    /// The byte at a place, or none past the end.
    fn byte(&self, place: usize) -> Option<u8>
        ensures { result ≡ byte_at (shown self.now).bytes place };
}

// An input that is lent shows what it showed.
impl<'a, I: Input> Input for &'a I {
    ghost shown = { λ s. I.Input.shown s.now };

    fn len(&self) -> usize {
        (**self).len()
    }

    fn byte(&self, place: usize) -> Option<u8> {
        (**self).byte(place)
    }
}
