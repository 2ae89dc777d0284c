ghost use Rattle.std.specs.Prelude.{◌≡◌, ◌<◌, ◌≤◌, length};
ghost use Rattle.stack.specs.Stacks.{held};
ghost use Rattle.meaning.specs.Syntax.{Grammar};
ghost use Rattle.meaning.specs.Meaning.{read_of};
ghost use Rattle.engine.specs.Configs.{Few};
ghost use Rattle.engine.specs.Steps.{GoesIf, Kept, Answers};
ghost use Rattle.engine.specs.declared.mode.Mode.TheVariants.{Begins};

use crate::mode::Mode;
use crate::setting::Setting;
use crate::tables::Tables;
use fields::FieldReader;
use input::{Input, Window};
use meaning::{Answer, Start};

impl<'a> Tables<'a> {
    // A start is let through and made, or stops the parse.
    pub(crate) fn begin<I: Input, R: FieldReader>(
        &mut self,
        setting: &Setting<I, R>,
        c: Start,
    ) -> Mode
        requires node { c.node ≤ length self.old.nodes.now }
        requires window { (c.window.left ≤ c.window.right) × (c.window.right ≤ length (I.Input.shown setting.now.input.now).bytes) }
        ensures goes { (rules : Grammar) → Few rules → GoesIf (record { read = read_of (R.FieldReader.meaning setting.now.readers.now); grammar = rules; bytes = (I.Input.shown setting.now.input.now).bytes }) self.old (Begins c) self.new result }
        ensures kept { Kept self.old self.new }
    {
        if self.state.starts == self.limits.budget {
            return Mode::Stopped(Answer::Budget);
        }
        if self.limits.frames <= self.stack.depth() {
            return Mode::Stopped(Answer::Depth);
        }
        if c.node == self.limits.nodes {
            return Mode::Stopped(Answer::Nodes);
        }
        self.state.starts += 1;
        if c.number < 32 {
            Mode::Tries(c, 0, 0)
        } else {
            self.read_field(setting, c)
        }
    }

    // A reader is asked for its field.
    fn read_field<I: Input, R: FieldReader>(&mut self, setting: &Setting<I, R>, c: Start) -> Mode
        requires node { c.node < length self.old.nodes.now }
        requires window { (c.window.left ≤ c.window.right) × (c.window.right ≤ length (I.Input.shown setting.now.input.now).bytes) }
        ensures answers { (rules : Grammar) → Answers (record { read = read_of (R.FieldReader.meaning setting.now.readers.now); grammar = rules; bytes = (I.Input.shown setting.now.input.now).bytes }) self.old c self.new result }
        ensures kept { Kept self.old self.new }
        ensures stack { held self.new.stack ≡ held self.old.stack }
    {
        let w = c.window;
        match setting.readers.read(c.number, setting.input, w) {
            Some(v) => {
                let used = Window {
                    right: w.left + v.used,
                    ..w
                };
                self.nodes[c.node] = c.done(0, used, [v.value, 0, 0, 0, 0, 0, 0, 0]);
                self.state.reach = self.state.reach.join(used);
                self.count = c.node + 1;
                Mode::Returns(c.node)
            }
            None => {
                self.state.reach = self.state.reach.join(w);
                Mode::GivesUp(c.node)
            }
        }
    }
}
