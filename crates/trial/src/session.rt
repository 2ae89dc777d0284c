use crate::show::show;
use answers::Numbered;
use input::slice::LONGEST;
use input::{Bench, Input, SliceInput, Window};
use script::command::{Command, read_command};
use script::hex::decode_hex;
use source::Source;
use std::alloc::{AllocError, Global};
use std::io::{Read, Write};
use std::{fmt, fs, io, mem};

// One byte more than an input shows, so that a longer file is seen to be too long without being read whole.
const READ_AT_MOST: u64 = LONGEST as u64 + 1;

/// Why a line was not answered.
#[derive(Debug, Drop)]
pub enum Fault {
    NotUnderstood,
    Io(io::Error),
}

impl From<io::Error> for Fault {
    fn from(error: io::Error) -> Fault {
        Fault::Io(error)
    }
}

impl From<AllocError> for Fault {
    fn from(error: AllocError) -> Fault {
        Fault::Io(io::Error::from(error))
    }
}

/// One of the two benches.
#[derive(Clone, Copy)]
enum Chosen {
    First,
    Second,
}

impl fmt::Display for Chosen {
    fn fmt<W: fmt::Write>(&self, f: &mut fmt::Formatter<W>) -> fmt::Result {
        match self {
            Chosen::First => write!(f, "first"),
            Chosen::Second => write!(f, "second"),
        }
    }
}

/// What a script works on: two benches, of which one is chosen.
#[derive(Drop)]
pub struct Session {
    first: Bench<Source>,
    second: Bench<Source>,
    chosen: Chosen,
}

fn empty(heap: Global) -> Bench<Source> {
    Bench::new(Source::new(Vec::new(heap)))
}

// The bytes of a file, or none where it cannot be read; of a file that is too long only the front.
fn read_file(rt: &HostRuntime, path: &[u8]) -> Option<Vec<u8>> {
    let path = std::str::from_utf8(path).ok()?;
    let file = fs::open(rt, path).ok()?;
    let mut bytes = Vec::new(rt.alloc());
    file.take(READ_AT_MOST).read_to_end(&mut bytes).ok()?;
    Some(bytes)
}

// The bytes that a line gives as digit pairs.
fn given_bytes(rt: &HostRuntime, hex: &[u8]) -> Result<Vec<u8>, Fault> {
    decode_hex(rt.alloc(), hex)?.ok_or(Fault::NotUnderstood)
}

impl Session {
    pub fn new(heap: Global) -> Session {
        Session {
            first: empty(heap),
            second: empty(heap),
            chosen: Chosen::First,
        }
    }

    fn bench(&mut self) -> &mut Bench<Source> {
        match self.chosen {
            Chosen::First => &mut self.first,
            Chosen::Second => &mut self.second,
        }
    }

    // Puts a bench in the place of the chosen one, which comes back.
    fn replace(&mut self, bench: Bench<Source>) -> Bench<Source> {
        mem::replace(self.bench(), bench)
    }

    // A new bench on these bytes, unless they are refused.
    fn load<W: Write>(&mut self, word: &str, bytes: Vec<u8>, out: &mut W) -> io::Result<()> {
        let len = bytes.len();
        match SliceInput::test(bytes.as_slice()) {
            Ok(()) => {
                let _old = self.replace(Bench::new(Source::new(bytes)));
                writeln!(out, "{word} {len}")
            }
            Err(refusal) => writeln!(out, "{word} refused {}", refusal.number()),
        }
    }

    // A new bench on a window of the chosen bench's slice.
    fn window<W: Write>(&mut self, heap: Global, window: Window, out: &mut W) -> io::Result<()> {
        let old = self.replace(empty(heap));
        let bench = Bench::new(old.into_below().with_window(window));
        let len = bench.len();
        let _empty = self.replace(bench);
        writeln!(out, "window {len}")
    }

    fn patch<W: Write>(&mut self, place: usize, bytes: &[u8], out: &mut W) -> io::Result<()> {
        let answer = self.bench().patch(place, bytes);
        writeln!(out, "patch {}", answer.number())
    }

    fn undo<W: Write>(&mut self, out: &mut W) -> io::Result<()> {
        let answer = self.bench().undo();
        writeln!(out, "undo {}", answer.number())
    }

    fn choose<W: Write>(&mut self, chosen: Chosen, out: &mut W) -> io::Result<()> {
        self.chosen = chosen;
        writeln!(out, "{chosen}")
    }

    // Makes the calls of a command, and prints what they answered.
    fn obey<W: Write>(
        &mut self,
        rt: &HostRuntime,
        command: Command,
        out: &mut W,
    ) -> Result<(), Fault> {
        match command {
            Command::Skip => {}
            Command::First => self.choose(Chosen::First, out)?,
            Command::Second => self.choose(Chosen::Second, out)?,
            Command::Bytes { hex } => self.load("bytes", given_bytes(rt, hex)?, out)?,
            Command::File { path } => {
                let bytes = read_file(rt, path).ok_or(Fault::NotUnderstood)?;
                self.load("file", bytes, out)?;
            }
            Command::Window(window) => self.window(rt.alloc(), window, out)?,
            Command::Patch { place, hex } => {
                let bytes = given_bytes(rt, hex)?;
                self.patch(place, bytes.as_slice(), out)?;
            }
            Command::Undo => self.undo(out)?,
            Command::Show(window) => show(&*self.bench(), window, out)?,
            // grammar texts are not read here yet
            Command::Text | Command::TextHex { hex: _ } | Command::Draft => {
                return Err(Fault::NotUnderstood);
            }
        }
        Ok(())
    }

    /// Answers one line.
    pub fn answer<W: Write>(
        &mut self,
        rt: &HostRuntime,
        line: &[u8],
        out: &mut W,
    ) -> Result<(), Fault> {
        match read_command(line).ok_or(Fault::NotUnderstood)? {
            // a line with nothing to do stays off the path of the others, which costs it half as much again
            Command::Skip => Ok(()),
            command => self.obey(rt, command, out),
        }
    }
}
