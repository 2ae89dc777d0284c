ghost use Rattle.std.specs.Prelude.{◌≡◌, ◌+◌, ◌<◌, ◌≤◌, length};
ghost use Rattle.meaning.specs.Meaning.{same};
ghost use Rattle.meaning.specs.Values.{value as value_of, ends as ends_at};
ghost use Rattle.meaning.specs.Windows.{bytes_in};
ghost use Rattle.sealed.specs.Grammars.{expr_in};
ghost use Rattle.engine.specs.Configs.{so_of};

use crate::frame::Frame;
use crate::tables::Tables;
use arena::{Ends, Span};
use evaluate::{PENDING, Reached};
use input::{Input, Window};
use sealed::Sealed;

impl<'a> Tables<'a> {
    // The value of an expression where an unfinished start has come.
    pub(crate) fn value_of(
        &self,
        grammar: &Sealed,
        e: Span,
        f: Frame,
        numbers: &mut [u64; PENDING],
    ) -> Option<u64>
        requires { f.what.node < self.now.count }
        ensures { result ≡ value_of f.what (so_of self.now.nodes.now self.now.count f) (expr_in grammar.now e) }
    {
        let me = f.what.node;
        let node = self.nodes[me];
        let reached = Reached {
            start: f.what,
            slots: &node.slots,
            below: &self.nodes[me + 1..self.count],
        };
        reached.value(grammar, e, numbers)
    }

    // The window of a term.
    #[tactic(auto, unfolding(meaning::specs::Values::ends, meaning::specs::Values::if_some))]
    pub(crate) fn window_of(
        &self,
        grammar: &Sealed,
        ends: Ends,
        f: Frame,
        numbers: &mut [u64; PENDING],
    ) -> Option<Window>
        requires { f.what.node < self.now.count }
        ensures { result ≡ ends_at f.what (so_of self.now.nodes.now self.now.count f) (expr_in grammar.now ends.left) (expr_in grammar.now ends.right) }
    {
        let window = f.what.window;
        let Some(left) = self.value_of(grammar, ends.left, f, numbers) else {
            return None;
        };
        let Some(right) = self.value_of(grammar, ends.right, f, numbers) else {
            return None;
        };
        let within = Window {
            left: left as usize,
            right: right as usize,
        };
        if !within.is_in(window.len()) {
            return None;
        }
        Some(Window {
            left: window.left + within.left,
            right: window.left + within.right,
        })
    }
}

// Whether a window of the input holds these bytes.
pub(crate) fn same_at<I: Input>(input: &I, w: Window, bytes: &[u8]) -> bool
    requires { (w.left + length bytes.now ≡ w.right) × (w.right ≤ length (I.Input.shown input.now).bytes) }
    ensures { result ≡ same (bytes_in (I.Input.shown input.now).bytes w) bytes.now }
{
    bytes
        .iter()
        .enumerate()
        .all(|(i, b)| input.byte(w.left + i) == Some(*b))
}
