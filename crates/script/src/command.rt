ghost use Rattle.std.specs.Prelude.{◌≡◌, ℕ, List};
ghost use Rattle.script.specs.Ends.{ends_of};
ghost use Rattle.script.specs.Commands.{none_left, two_numbers, File, Patch, asks, given, comment, command_of};

use crate::number::number;
use crate::piece::{Cut, cut_word};
use input::Window;

/// What a line of a script asks for. Hexadecimal bytes and a path are parts of the line.
#[derive(Clone, Copy)]
pub enum Command<'a> {
    /// A line with nothing to do: blank, or a comment.
    Skip,
    First,
    Second,
    Bytes { hex: &'a [u8] },
    File { path: &'a [u8] },
    Window(Window),
    Patch { place: usize, hex: &'a [u8] },
    Undo,
    Show(Window),
    /// The lines that follow, up to `end`, are a grammar text.
    Text,
    TextHex { hex: &'a [u8] },
    Draft,
}

fn is_end(rest: &[u8]) -> bool
    ensures { result ≡ none_left rest.now }
{
    cut_word(rest).piece.is_empty()
}

// The two ends that a line has left, and nothing else.
fn window(rest: &[u8]) -> Option<Window>
    ensures { ends_of result ≡ two_numbers rest.now }
{
    let left = cut_word(rest);
    let right = cut_word(left.rest);
    if !is_end(right.rest) {
        return None;
    }
    Some(Window {
        left: number(left.piece)?,
        right: number(right.piece)?,
    })
}

fn read_file(rest: &[u8]) -> Option<Command<'_>>
    ensures { asks result ≡ given File rest.now }
{
    let path = cut_word(rest);
    let stands_alone = !path.piece.is_empty() && is_end(path.rest);
    stands_alone.then_some(Command::File { path: path.piece })
}

fn read_patch(rest: &[u8]) -> Option<Command<'_>>
    ensures { asks result ≡ given Patch rest.now }
{
    let place = cut_word(rest);
    Some(Command::Patch {
        place: number(place.piece)?,
        hex: place.rest,
    })
}

fn is_comment(line: &[u8]) -> bool
    ensures { result ≡ comment line.now }
{
    matches!(line, [b'#', ..])
}

/// The command of a line, or none where it is not understood. Hexadecimal bytes are decoded later.
pub fn read_command(line: &[u8]) -> Option<Command<'_>>
    ensures { asks result ≡ command_of line.now }
{
    if is_comment(line) {
        return Some(Command::Skip);
    }
    let Cut { piece, rest } = cut_word(line);
    match piece {
        b"" => Some(Command::Skip),
        b"first" => is_end(rest).then_some(Command::First),
        b"second" => is_end(rest).then_some(Command::Second),
        b"bytes" => Some(Command::Bytes { hex: rest }),
        b"file" => read_file(rest),
        b"window" => Some(Command::Window(window(rest)?)),
        b"patch" => read_patch(rest),
        b"undo" => is_end(rest).then_some(Command::Undo),
        b"show" => Some(Command::Show(window(rest)?)),
        b"text" => is_end(rest).then_some(Command::Text),
        b"text-hex" => Some(Command::TextHex { hex: rest }),
        b"draft" => is_end(rest).then_some(Command::Draft),
        _ => None,
    }
}
