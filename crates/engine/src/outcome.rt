ghost use Rattle.meaning.specs.Answers.{answer_number};
ghost use Rattle.engine.specs.Replies.{refusal_number};

use answers::Numbered;
use input::Window;
use meaning::Answer;

/// What a parse has come to.
#[derive(Clone, Copy, PartialEq, Eq, Debug)]
pub struct Outcome {
    pub answer: Answer,
    pub nodes: usize,
    pub starts: u64,
    /// The smallest window over every byte read.
    pub reach: Window,
}

// An outcome has the number of its answer.
impl Numbered for Outcome {
    ghost listed = { λ o. answer_number o.answer };

    fn number(&self) -> u8 {
        self.answer.number()
    }
}

/// Why a parse was refused.
#[derive(Clone, Copy, PartialEq, Eq, Debug)]
pub enum Refusal {
    /// The grammar has no such rule.
    UnknownRule,
    /// The window is out of order or past the end of the input.
    BadWindow,
    /// The budget or the length of a table is not allowed.
    BadLimits,
}

// The refusal's listed number.
impl Numbered for Refusal {
    ghost listed = { refusal_number };

    fn number(&self) -> u8 {
        match self {
            Refusal::UnknownRule => 21,
            Refusal::BadWindow => 22,
            Refusal::BadLimits => 23,
        }
    }
}
