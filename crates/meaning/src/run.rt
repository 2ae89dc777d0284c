ghost use Rattle.std.specs.Prelude.{◌≡◌, []};
ghost use Rattle.meaning.specs.Meaning.{tree};

use crate::node::Node;
use input::Window;

/// What is begun: a rule or a field reader on a window.
#[derive(Clone, Copy, PartialEq, Eq, Debug, Default)]
pub struct Start {
    /// The rule's number, or from 32 on the field reader's.
    pub number: u16,
    /// The number of the caller's node.
    pub parent: usize,
    /// The term of the caller's rule that makes the start.
    pub term: usize,
    /// The number that the start's own node will have.
    pub node: usize,
    pub window: Window,
}

impl Start {
    /// The node of a start that has succeeded with this alternative.
    #[tactic(auto, unfolding(crate::specs::Meaning::tree))]
    pub fn done(self, alternative: usize, used: Window, slots: [u64; 8]) -> Node
        ensures { result ≡ (tree self alternative (record { slots = slots; below = []; used = used })).top }
    {
        Node {
            number: self.number,
            alternative,
            parent: self.parent,
            term: self.term,
            window: self.window,
            used,
            slots,
        }
    }
}

/// What every run hands on, also one that failed: the count of starts, and the reach.
#[derive(Clone, Copy, PartialEq, Eq, Debug, Default)]
pub struct State {
    pub starts: u64,
    pub reach: Window,
}

/// How many starts, starts inside one another, and nodes a parse may come to.
#[derive(Clone, Copy, PartialEq, Eq, Debug)]
pub struct Limits {
    pub budget: u64,
    pub frames: usize,
    pub nodes: usize,
}
