ghost use Rattle.std.specs.Prelude.{◌≡◌, ◌+◌, ◌≤◌, length, take, drop, Some};
ghost use Rattle.fields.specs.Fields.{on_window};
ghost use Rattle.fields.specs.Readings.{little_endian, little_reading};

use crate::reading::Reading;
use input::{Input, Window};

// Reads `width` bytes from the front of a window as one number, the lowest byte first; refuses a shorter window.
pub(crate) fn read_little<I: Input>(input: &I, window: Window, width: usize) -> Option<Reading>
    requires { width ≤ 8 }
    ensures { result ≡ on_window (little_reading width) (I.Input.shown input.now).bytes window.left window.right }
{
    if !window.is_in(input.len()) || window.len() < width {
        return None;
    }
    let value = little(input, window.left, width)?;
    Some(Reading { value, used: width })
}

// The number in `width` bytes from `left` on, built from its highest byte down.
fn little<I: Input>(input: &I, left: usize, width: usize) -> Option<u64>
    requires { (left + width ≤ length (I.Input.shown input.now).bytes) × (width ≤ 8) }
    ensures { result ≡ Some (little_endian (take width (drop left (I.Input.shown input.now).bytes))) }
{
    let mut value: u64 = 0;
    for i in (0..width).rev() {
        let b = input.byte(left + i)?;
        value = value * 256 + u64::from(b);
    }
    Some(value)
}
