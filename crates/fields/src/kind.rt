ghost use Rattle.std.specs.Prelude.{◌≡◌, Some, None, MatchOption};
ghost use Rattle.fields.specs.Kinds.{number_of, name_of, kind_named, Decodes};

use crate::names::{RAW, U8, U16LE, U32LE, U64LE};

/// What a built-in reader reads: a number of 1, 2, 4 or 8 bytes with the lowest first, or bytes as they are.
#[derive(Clone, Copy, PartialEq, Eq, Debug)]
pub enum Kind {
    U8,
    U16Le,
    U32Le,
    U64Le,
    Raw,
}

/// A number that no built-in reader has.
#[derive(Clone, Copy, PartialEq, Eq, Debug)]
pub struct UnknownReader(pub u16);

impl TryFrom<u16> for Kind {
    type Error = UnknownReader;

    ghost try_from_gives = { Decodes };

    fn try_from(number: u16) -> Result<Kind, UnknownReader> {
        match number {
            U8 => Ok(Kind::U8),
            U16LE => Ok(Kind::U16Le),
            U32LE => Ok(Kind::U32Le),
            U64LE => Ok(Kind::U64Le),
            RAW => Ok(Kind::Raw),
            _ => Err(UnknownReader(number)),
        }
    }
}

impl Kind {
    /// The reader that has a name.
    pub fn named(name: &[u8]) -> Option<Kind>
        ensures { result ≡ kind_named name.now }
    {
        match name {
            b"u8" => Some(Kind::U8),
            b"u16le" => Some(Kind::U16Le),
            b"u32le" => Some(Kind::U32Le),
            b"u64le" => Some(Kind::U64Le),
            b"raw" => Some(Kind::Raw),
            _ => None,
        }
    }

    /// The reader's number.
    pub fn number(self) -> u16
        ensures { result ≡ number_of self }
    {
        match self {
            Kind::U8 => U8,
            Kind::U16Le => U16LE,
            Kind::U32Le => U32LE,
            Kind::U64Le => U64LE,
            Kind::Raw => RAW,
        }
    }

    /// The reader's name.
    pub fn name(self) -> &'static str
        ensures { result.now ≡ name_of self }
    {
        match self {
            Kind::U8 => "u8",
            Kind::U16Le => "u16le",
            Kind::U32Le => "u32le",
            Kind::U64Le => "u64le",
            Kind::Raw => "raw",
        }
    }
}
