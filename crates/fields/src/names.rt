ghost use Rattle.std.specs.Prelude.{◌≡◌, Some, None, MatchOption};
ghost use Rattle.fields.specs.Names.{reader_table, number_in, name_in};

use crate::kind::Kind;

pub const U8: u16 = 32;

pub const U16LE: u16 = 33;

pub const U32LE: u16 = 35;

pub const U64LE: u16 = 37;

pub const RAW: u16 = 40;

/// The name of a built-in reader, by its number.
pub fn reader_name(number: u16) -> Option<&'static str>
    ensures { MatchOption result (name_in reader_table number ≡ None) (λ name. name_in reader_table number ≡ Some name.now) }
{
    Kind::try_from(number).ok().map(Kind::name)
}

/// The number of a built-in reader, by its name.
pub fn reader_number(name: &[u8]) -> Option<u16>
    ensures { result ≡ number_in reader_table name.now }
{
    Kind::named(name).map(Kind::number)
}
