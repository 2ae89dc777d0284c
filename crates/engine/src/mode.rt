ghost use Rattle.std.specs.Prelude.{◌≡◌};
ghost use Rattle.engine.specs.Configs.{goes_on};

use crate::frame::Frame;
use meaning::{Answer, Start};

/// What comes next.
#[derive(Clone, Copy, PartialEq, Eq, Debug)]
pub enum Mode {
    /// A start is about to be made.
    Begins(Start),
    /// The next term of a start runs.
    Runs(Frame),
    /// A start tries the alternative with this number, whose first term has this number.
    Tries(Start, usize, usize),
    /// The start with this node has succeeded.
    Returns(usize),
    /// The start with this node has failed.
    GivesUp(usize),
    Matched,
    Failed,
    Stopped(Answer),
}

impl Mode {
    // Whether there is a step left.
    #[tactic(auto, unfolding(crate::specs::Configs::goes_on))]
    pub(crate) fn goes_on(self) -> bool
        ensures { result ≡ goes_on self }
    {
        match self {
            Mode::Begins(_) | Mode::Runs(_) | Mode::Tries(..) => true,
            Mode::Returns(_) | Mode::GivesUp(_) => true,
            Mode::Matched | Mode::Failed | Mode::Stopped(_) => false,
        }
    }
}
