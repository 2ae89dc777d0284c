ghost use Rattle.std.specs.Prelude.{◌≡◌};
ghost use Rattle.fields.specs.Fields.{Fields, read_on};

use crate::reader::FieldReader;
use crate::reading::Reading;
use input::{Input, Window};

// A reader that is lent reads what it read.
impl<'a, R: FieldReader> FieldReader for &'a R {
    ghost meaning = { λ s. R.FieldReader.meaning s.now };

    fn owns(&self, number: u16) -> bool {
        (**self).owns(number)
    }

    fn read<I: Input>(&self, number: u16, input: &I, window: Window) -> Option<Reading> {
        (**self).read(number, input, window)
    }
}
