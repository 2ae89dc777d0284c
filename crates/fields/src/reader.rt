ghost use Rattle.std.specs.Prelude.{◌≡◌};
ghost use Rattle.fields.specs.Fields.{Fields, read_on};

use crate::reading::Reading;
use input::{Input, Window};

/// A field reader means, for each number that it owns, a function from a window's bytes to a refusal or a reading.
/// The laws of such a function come with its meaning, so that generic code may use them of any reader.
pub trait FieldReader {
    ghost meaning: { Self → Fields };

    /// Whether the number is one of its own.
    fn owns(&self, number: u16) -> bool
        ensures { result ≡ (meaning self.now).owned number };

    /// Reads a window. Refuses a number that is not its own, and a window that is out of order or past the end.
    fn read<I: Input>(&self, number: u16, input: &I, window: Window) -> Option<Reading>
        ensures { result ≡ read_on (meaning self.now) number (I.Input.shown input.now).bytes window.left window.right };
}
