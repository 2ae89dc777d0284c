ghost use Rattle.std.specs.Prelude.{◌≡◌};
ghost use Rattle.fields.specs.Fields.{Fields, read_on};
ghost use Rattle.fields.specs.Numbers.{joined_fields};

use crate::reader::FieldReader;
use crate::reading::Reading;
use input::{Input, Window};

/// Two readers as one. It owns the numbers of both sides; where both own a number the left one answers, also if it refuses.
#[derive(Clone, Copy, Drop)]
pub struct Joined<L, R> {
    pub left: L,
    pub right: R,
}

impl<L: FieldReader, R: FieldReader> FieldReader for Joined<L, R> {
    ghost meaning = { λ s. joined_fields (L.FieldReader.meaning s.left) (R.FieldReader.meaning s.right) };

    fn owns(&self, number: u16) -> bool {
        self.left.owns(number) || self.right.owns(number)
    }

    fn read<I: Input>(&self, number: u16, input: &I, window: Window) -> Option<Reading> {
        if self.left.owns(number) {
            self.left.read(number, input, window)
        } else {
            self.right.read(number, input, window)
        }
    }
}
