ghost use Rattle.std.specs.Prelude.{◌≡◌, ℕ, ◌+◌, ◌-◌, ◌<◌, ◌≤◌, ◌++◌, map, length, take, replicate, slice_index_or};
ghost use Rattle.engine.specs.Blanks.{blank_node, blank_frame};
ghost use Rattle.engine.specs.Places.{placed, absolute, FitAt, NodeFits};

use crate::frame::Frame;
use input::Window;
use meaning::Node;

// Every frame is blank.
pub(crate) fn clear(frames: &mut [Frame])
    ensures { frames.new ≡ replicate (length frames.old) blank_frame }
{
    frames.fill(Frame::default());
}

// Every node from the `count`-th on is blank.
pub(crate) fn clear_rest(nodes: &mut [Node], count: usize)
    requires { count ≤ length nodes.old }
    ensures { nodes.new ≡ take count nodes.old ++ replicate (length nodes.old - count) blank_node }
{
    let end = nodes.len();
    nodes[count..end].fill(Node::default());
}

// A place of a window becomes one of the input.
pub(crate) fn place(w: Window, left: usize) -> Window
    requires { FitAt left w }
    ensures { result ≡ placed left w }
{
    Window {
        left: w.left + left,
        right: w.right + left,
    }
}

// The places of the nodes become those of the input.
pub(crate) fn move_nodes(nodes: &mut [Node], left: usize)
    requires { (i : ℕ) → i < length nodes.old → NodeFits left (slice_index_or nodes.old i blank_node) }
    ensures { nodes.new ≡ map (absolute left) nodes.old }
{
    for node in nodes.iter_mut() {
        *node = Node {
            window: place(node.window, left),
            used: place(node.used, left),
            ..*node
        };
    }
}
