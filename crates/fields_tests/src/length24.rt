ghost use Rattle.std.specs.Prelude.{◌≡◌};
ghost use Rattle.fields.specs.Fields.{Fields, read_on};
ghost use Rattle.fields_tests.specs.Lengths.{length24_fields};

use fields::{FieldReader, Reading};
use input::{Input, Window};

/// A reader as a user writes one: a length in three bytes, the highest first, under a number of the user's choice.
#[derive(Clone, Copy, PartialEq, Eq, Debug)]
pub struct Length24 {
    pub number: u16,
}

impl FieldReader for Length24 {
    ghost meaning = { λ s. length24_fields s.number };

    fn owns(&self, number: u16) -> bool {
        number == self.number
    }

    fn read<I: Input>(&self, number: u16, input: &I, window: Window) -> Option<Reading> {
        if number != self.number || !window.is_in(input.len()) || window.len() < 3 {
            return None;
        }
        let high = input.byte(window.left)?;
        let middle = input.byte(window.left + 1)?;
        let low = input.byte(window.left + 2)?;
        let value = u64::from(high) * 65536 + u64::from(middle) * 256 + u64::from(low);
        Some(Reading { value, used: 3 })
    }
}
