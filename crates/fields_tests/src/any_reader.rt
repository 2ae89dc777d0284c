ghost use Rattle.std.specs.Prelude.{◌≡◌, ℕ, ◌-◌, ◌≤◌, length, take, Some};
ghost use Rattle.fields.specs.Fields.{read_on};
ghost use Rattle.fields.specs.declared.reading.Reading.{Reading};

use fields::{FieldReader, Reading};
use input::{Input, Window};

/// How many bytes of a window a reader uses, 0 where it refuses: no reader goes past its window.
pub fn used<R: FieldReader, I: Input>(reader: &R, number: u16, input: &I, window: Window) -> usize
    ensures { result ≤ window.right - window.left }
{
    reader
        .read(number, input, window)
        .map_or(0, |reading| reading.used)
}

fn whole<I: Input>(input: &I) -> Window
    ensures { result ≡ record { left = 0; right = length (I.Input.shown input.now).bytes } }
{
    Window {
        left: 0,
        right: input.len(),
    }
}

/// Reads two whole inputs, of any make. If they are of equal length and have the same bytes where the first was used, the answers are equal.
pub fn read_both<R: FieldReader, I: Input, J: Input>(
    reader: &R,
    number: u16,
    first: &I,
    second: &J,
) -> (Option<Reading>, Option<Reading>)
    ensures one { result.0 ≡ read_on (R.FieldReader.meaning reader.now) number (I.Input.shown first.now).bytes 0 (length (I.Input.shown first.now).bytes) }
    ensures other { result.1 ≡ read_on (R.FieldReader.meaning reader.now) number (J.Input.shown second.now).bytes 0 (length (J.Input.shown second.now).bytes) }
    ensures agree { (v : Reading) → result.0 ≡ Some v → length (J.Input.shown second.now).bytes ≡ length (I.Input.shown first.now).bytes → take v.used (J.Input.shown second.now).bytes ≡ take v.used (I.Input.shown first.now).bytes → result.1 ≡ Some v }
{
    let one = reader.read(number, first, whole(first));
    let other = reader.read(number, second, whole(second));
    (one, other)
}
