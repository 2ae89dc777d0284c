ghost use Rattle.std.specs.Prelude.{◌≡◌};
ghost use Rattle.fields.specs.Fields.{on_window};
ghost use Rattle.fields.specs.Readings.{raw_reading};

use crate::reading::Reading;
use input::{Input, Window};

// Takes the whole window, of which only the length is asked; refuses an empty one.
pub(crate) fn read_raw<I: Input>(input: &I, window: Window) -> Option<Reading>
    ensures { result ≡ on_window raw_reading (I.Input.shown input.now).bytes window.left window.right }
{
    let used = window.len();
    if used == 0 || !window.is_in(input.len()) {
        return None;
    }
    Some(Reading {
        value: used as u64,
        used,
    })
}
