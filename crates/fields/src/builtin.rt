ghost use Rattle.std.specs.Prelude.{◌≡◌};
ghost use Rattle.fields.specs.Fields.{Fields, read_on};
ghost use Rattle.fields.specs.Numbers.{builtin_fields};

use crate::kind::Kind;
use crate::little::read_little;
use crate::raw::read_raw;
use crate::reader::FieldReader;
use crate::reading::Reading;
use input::{Input, Window};

/// The readers `u8`, `u16le`, `u32le`, `u64le` and `raw`.
#[derive(Clone, Copy, PartialEq, Eq, Debug)]
pub struct Builtin;

impl FieldReader for Builtin {
    ghost meaning = { λ _. builtin_fields };

    fn owns(&self, number: u16) -> bool {
        Kind::try_from(number).is_ok()
    }

    fn read<I: Input>(&self, number: u16, input: &I, window: Window) -> Option<Reading> {
        match Kind::try_from(number).ok()? {
            Kind::U8 => read_little(input, window, 1),
            Kind::U16Le => read_little(input, window, 2),
            Kind::U32Le => read_little(input, window, 4),
            Kind::U64Le => read_little(input, window, 8),
            Kind::Raw => read_raw(input, window),
        }
    }
}
