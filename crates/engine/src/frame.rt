ghost use Rattle.std.specs.Prelude.{◌≡◌, ◌<◌, ◌≤◌};
ghost use Rattle.engine.specs.Configs.{onward, next_try};

use crate::mode::Mode;
use input::Window;
use meaning::Start;

/// An unfinished start.
#[derive(Clone, Copy, PartialEq, Eq, Debug, Default)]
pub struct Frame {
    pub what: Start,
    /// The alternative that is tried.
    pub alt: usize,
    /// The next term's place in the alternative.
    pub place: usize,
    /// The next term's number in the rule.
    pub next: usize,
    /// The number of the first term of the next alternative.
    pub after: usize,
    /// What the alternative has used.
    pub used: Window,
}

impl Frame {
    // One term on.
    pub(crate) fn onward(self, used: Window) -> Frame
        requires { (self.place ≤ self.next) × (self.next < 65536) }
        ensures { result ≡ onward self used }
    {
        Frame {
            place: self.place + 1,
            next: self.next + 1,
            used,
            ..self
        }
    }

    // The next alternative is tried.
    pub(crate) fn next_try(self) -> Mode
        requires { self.alt < 18446744073709551615 }
        ensures { result ≡ next_try self }
    {
        Mode::Tries(self.what, self.alt + 1, self.after)
    }
}
