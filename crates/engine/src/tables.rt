ghost use Rattle.std.specs.Prelude.{◌≡◌, ◌≤◌, length};
ghost use Rattle.stack.specs.Stacks.{room};

use crate::frame::Frame;
use meaning::{Limits, Node, State};
use stack::Stack;

// Where a parse under way stands: unfinished starts, and the nodes that were made, of which the first `count` are in use,
// both in lent tables.
#[derive(Drop)]
pub(crate) struct Tables<'a> {
    pub(crate) limits: Limits,
    pub(crate) stack: Stack<'a, Frame>,
    pub(crate) nodes: &'a mut [Node],
    pub(crate) count: usize,
    pub(crate) state: State,
    ghost all_frames: { limits.frames ≡ length (room stack) },
    ghost all_nodes: { limits.nodes ≡ length nodes.now },
    ghost few: { count ≤ length nodes.now },
    ghost in_budget: { state.starts ≤ limits.budget },
}
