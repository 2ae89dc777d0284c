ghost use Rattle.std.specs.Prelude.{◌≡◌, ◌≤◌, length};
ghost use Rattle.meaning.specs.Runs.{Ran};
ghost use Rattle.meaning.specs.Meaning.{Tree, outcome};
ghost use Rattle.machine.specs.Machine.Next.{over};
ghost use Rattle.engine.specs.Parses.{told};
ghost use Rattle.engine.specs.Steps.{Subject, SoundAt, stands_at};

use crate::mode::Mode;
use crate::outcome::Outcome;
use crate::tables::Tables;
use meaning::Answer;

impl<'a> Tables<'a> {
    // The outcome that the engine has come to.
    #[tactic(auto, using(crate::proofs::Outcomes::end_matched, crate::proofs::Outcomes::end_stopped, crate::proofs::Outcomes::end_failed))]
    pub(crate) fn conclude(&self, end: Mode) -> Outcome
        ensures { (q : Subject) (ran : Ran Tree) → stands_at q.grammar self.now end ≡ over ran → SoundAt q self.now end → (told result self.now.nodes.now ≡ outcome ran) × (result.nodes ≤ length self.now.nodes.now) }
    {
        match end {
            Mode::Matched => self.ended(Answer::Match, self.count),
            Mode::Stopped(answer) => self.ended(answer, 0),
            _ => self.ended(Answer::NoMatch, 0),
        }
    }

    // An answer, with so many nodes.
    fn ended(&self, answer: Answer, nodes: usize) -> Outcome
        ensures { result ≡ record { answer = answer; nodes = nodes; starts = self.now.state.starts; reach = self.now.state.reach } }
    {
        Outcome {
            answer,
            nodes,
            starts: self.state.starts,
            reach: self.state.reach,
        }
    }
}
