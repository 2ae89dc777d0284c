ghost use Rattle.std.specs.Prelude.{◌≡◌};
ghost use Rattle.meaning.specs.Values.{called};

use input::Window;

/// What is left of a start that succeeded.
#[derive(Clone, Copy, PartialEq, Eq, Debug, Default)]
pub struct Node {
    /// The rule's number, or from 32 on the field reader's.
    pub number: u16,
    /// The chosen alternative; 0 for a reader.
    pub alternative: usize,
    /// The number of the caller's node; the root is its own parent.
    pub parent: usize,
    /// The number, in the caller's rule, of the term that made the start.
    pub term: usize,
    pub window: Window,
    pub used: Window,
    pub slots: [u64; 8],
}

/// The node of the call that is the `term`-th term of the rule whose node is `caller`.
#[tactic(auto, unfolding(crate::specs::Values::called))]
pub fn find_call(caller: usize, term: usize, below: &[Node]) -> Option<Node>
    ensures { result ≡ called caller term below.now }
{
    below
        .iter()
        .find(|n| n.parent == caller && n.term == term)
        .copied()
}
