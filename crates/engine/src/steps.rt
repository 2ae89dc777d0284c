ghost use Rattle.std.specs.Prelude.{◌+◌, ◌<◌, ◌≤◌, [], length, drop, slice_index_or};
ghost use Rattle.stack.specs.Stacks.{held};
ghost use Rattle.meaning.specs.Syntax.{Grammar};
ghost use Rattle.sealed.specs.Grammars.{grammar_of, terms_in};
ghost use Rattle.engine.specs.Configs.{Small};
ghost use Rattle.engine.specs.Steps.{GoesAnyhow, Kept};
ghost use Rattle.engine.specs.declared.mode.Mode.TheVariants.{Tries, Returns, GivesUp};

use crate::frame::Frame;
use crate::mode::Mode;
use crate::tables::Tables;
use input::Window;
use meaning::{Node, Start};
use sealed::Sealed;

impl<'a> Tables<'a> {
    // A start that has succeeded is handed to the one around it.
    pub(crate) fn give_back(&mut self, me: usize) -> Mode
        requires { me < length self.old.nodes.now }
        ensures goes { (rules : Grammar) → GoesAnyhow rules self.old (Returns me) self.new result }
        ensures kept { Kept self.old self.new }
    {
        match self.stack.pop() {
            Ok(f) => Mode::Runs(Frame {
                used: f.used.join(self.nodes[me].used),
                ..f
            }),
            Err(_) => Mode::Matched,
        }
    }

    // A start that has failed has the next alternative of the one around it tried.
    pub(crate) fn give_up(&mut self, me: usize) -> Mode
        requires { Small (held self.old.stack) }
        ensures goes { (rules : Grammar) → GoesAnyhow rules self.old (GivesUp me) self.new result }
        ensures kept { Kept self.old self.new }
    {
        match self.stack.pop() {
            Ok(f) => f.next_try(),
            Err(_) => Mode::Failed,
        }
    }

    // The `i`-th alternative of a rule begins, its first term being the rule's `k`-th.
    pub(crate) fn try_next(&mut self, grammar: &Sealed, c: Start, i: usize, k: usize) -> Mode
        requires { (c.node < length self.old.nodes.now) × (k + terms_in (drop i (slice_index_or (grammar_of grammar.now) c.number [])) ≤ 65536) }
        ensures goes { GoesAnyhow (grammar_of grammar.now) self.old (Tries c i k) self.new result }
        ensures kept { Kept self.old self.new }
    {
        let Some(n) = grammar.term_count(c.number, i) else {
            return Mode::GivesUp(c.node);
        };
        self.nodes[c.node] = Node::default();
        self.count = c.node + 1;
        Mode::Runs(Frame {
            what: c,
            alt: i,
            place: 0,
            next: k,
            after: k + n,
            used: Window {
                right: c.window.left,
                ..c.window
            },
        })
    }
}
