use answers::Numbered;
use engine::Refusal;
use input::{Input, Window};
use std::io;
use std::io::Write;

/// Prints the bytes that an input shows in a window.
pub fn show<I: Input, W: Write>(input: &I, window: Window, out: &mut W) -> io::Result<()> {
    if !window.is_in(input.len()) {
        return writeln!(out, "show refused {}", Refusal::BadWindow.number());
    }
    write!(out, "show")?;
    for place in window.left..window.right {
        if let Some(byte) = input.byte(place) {
            write!(out, " {byte:02x}")?;
        }
    }
    writeln!(out)
}
