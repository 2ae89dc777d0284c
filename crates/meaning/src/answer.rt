ghost use Rattle.meaning.specs.Answers.{answer_number};

use answers::Numbered;

/// How a parse ended. The last three are its limits: it stopped before a start that one of them forbids.
#[derive(Clone, Copy, PartialEq, Eq, Debug)]
pub enum Answer {
    Match,
    NoMatch,
    Budget,
    Depth,
    Nodes,
}

// The answer's listed number.
impl Numbered for Answer {
    ghost listed = { answer_number };

    fn number(&self) -> u8 {
        match self {
            Answer::Match => 0,
            Answer::NoMatch => 24,
            Answer::Budget => 25,
            Answer::Depth => 26,
            Answer::Nodes => 27,
        }
    }
}
