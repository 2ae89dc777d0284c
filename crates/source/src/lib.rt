// Bytes that a program holds, as an input: all of them as a slice, or one window of that slice.
#![tactic(auto)]

ghost use Rattle.std.specs.Prelude.{◌≡◌, ◌≤◌, length, Some, None};
ghost use Rattle.input.specs.Bytes.{byte_at};
ghost use Rattle.source.specs.Sources.{source_shown};

use input::{Input, SliceInput, Window, WindowInput};

/// Bytes that are held, with the window of them that is shown; without one all are.
#[derive(Drop)]
pub struct Source {
    bytes: Vec<u8>,
    window: Option<Window>,
}

impl Source {
    /// Shows all the bytes, as a slice input does.
    pub fn new(bytes: Vec<u8>) -> Source
        ensures { result ≡ record { bytes = bytes; window = None } }
    {
        Source {
            bytes,
            window: None,
        }
    }

    /// Shows a window of the bytes in place of what was shown.
    pub fn with_window(self, window: Window) -> Source
        ensures { result ≡ record { bytes = self.bytes; window = Some window } }
    {
        Source {
            window: Some(window),
            ..self
        }
    }
}

impl Input for Source {
    ghost shown = { λ s. source_shown s.bytes.items s.window };

    fn len(&self) -> usize {
        let slice = SliceInput::new(self.bytes.as_slice());
        match self.window {
            None => slice.len(),
            Some(window) => WindowInput::new(slice, window).len(),
        }
    }

    fn byte(&self, place: usize) -> Option<u8> {
        let slice = SliceInput::new(self.bytes.as_slice());
        match self.window {
            None => slice.byte(place),
            Some(window) => WindowInput::new(slice, window).byte(place),
        }
    }
}
