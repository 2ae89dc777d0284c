ghost use Rattle.std.specs.Prelude.{◌≡◌, ◌<◌, ◌≤◌, [], length};
ghost use Rattle.stack.specs.Stacks.{held, room};
ghost use Rattle.meaning.specs.Syntax.Term.{literal, call, attribute, guard};
ghost use Rattle.meaning.specs.Syntax.{Grammar};
ghost use Rattle.meaning.specs.Meaning.{Replies};
ghost use Rattle.arena.specs.Parts.{part};
ghost use Rattle.sealed.specs.Grammars.{grammar_of, expr_in};
ghost use Rattle.engine.specs.Configs.{Inside, NextIs, todo_of};
ghost use Rattle.engine.specs.Steps.{subject, SoundAt, Goes, GoesIf, GoesAnyhow, Kept};
ghost use Rattle.engine.specs.declared.mode.Mode.TheVariants.{Runs};

use crate::frame::Frame;
use crate::mode::Mode;
use crate::setting::Setting;
use crate::tables::Tables;
use crate::terms::same_at;
use arena::{Ends, Span, Term, write_at};
use evaluate::PENDING;
use fields::FieldReader;
use input::Input;
use meaning::Start;

impl<'a> Tables<'a> {
    // An unfinished start runs its next term.
    pub(crate) fn run_next<I: Input, R: FieldReader>(
        &mut self,
        setting: &Setting<I, R>,
        f: Frame,
        numbers: &mut [u64; PENDING],
    ) -> Mode
        requires { SoundAt (subject I.Input.shown R.FieldReader.meaning setting.now) self.old (Runs f) }
        ensures goes { (read : Replies) → Goes (record { read = read; grammar = grammar_of setting.now.grammar.now; bytes = (I.Input.shown setting.now.input.now).bytes }) self.old (Runs f) self.new result }
        ensures kept { Kept self.old self.new }
    {
        let Some(t) = setting.grammar.term(f.what.number, f.alt, f.place) else {
            return self.finish(f);
        };
        match t {
            Term::Literal(bytes, ends) => self.run_literal(setting, bytes, ends, f, numbers),
            Term::Call(n, ends) => self.run_call(setting, n, ends, f, numbers),
            Term::Attribute(k, e) => self.run_attribute(setting, k, e, f, numbers),
            Term::Guard(e) => self.run_guard(setting, e, f, numbers),
        }
    }

    // A guard lets its alternative go on, or not.
    fn run_guard<I: Input, R: FieldReader>(
        &mut self,
        setting: &Setting<I, R>,
        e: Span,
        f: Frame,
        numbers: &mut [u64; PENDING],
    ) -> Mode
        requires table { f.what.node < self.old.count }
        requires frame { (f.place ≤ f.next) × (f.next < 65536) × (f.alt < 18446744073709551615) }
        ensures goes { (rules : Grammar) → NextIs rules f (guard (expr_in setting.now.grammar.now e)) → GoesAnyhow rules self.old (Runs f) self.new result }
        ensures kept { Kept self.old self.new }
    {
        let Some(v) = self.value_of(setting.grammar, e, f, numbers) else {
            return f.next_try();
        };
        if v == 0 {
            return f.next_try();
        }
        Mode::Runs(f.onward(f.used))
    }

    // An attribute's value goes into its slot.
    fn run_attribute<I: Input, R: FieldReader>(
        &mut self,
        setting: &Setting<I, R>,
        k: usize,
        e: Span,
        f: Frame,
        numbers: &mut [u64; PENDING],
    ) -> Mode
        requires table { f.what.node < self.old.count }
        requires frame { (f.place ≤ f.next) × (f.next < 65536) × (f.alt < 18446744073709551615) }
        ensures goes { (rules : Grammar) → NextIs rules f (attribute k (expr_in setting.now.grammar.now e)) → GoesAnyhow rules self.old (Runs f) self.new result }
        ensures kept { Kept self.old self.new }
    {
        let Some(v) = self.value_of(setting.grammar, e, f, numbers) else {
            return f.next_try();
        };
        let mut node = self.nodes[f.what.node];
        // an attribute that there is no slot for is not set
        write_at(&mut node.slots, k, v);
        self.nodes[f.what.node] = node;
        Mode::Runs(f.onward(f.used))
    }

    // A literal reads its window.
    fn run_literal<I: Input, R: FieldReader>(
        &mut self,
        setting: &Setting<I, R>,
        bytes: Span,
        ends: Ends,
        f: Frame,
        numbers: &mut [u64; PENDING],
    ) -> Mode
        requires table { f.what.node < self.old.count }
        requires frame { (f.place ≤ f.next) × (f.next < 65536) × (f.alt < 18446744073709551615) }
        requires window { Inside (grammar_of setting.now.grammar.now) (I.Input.shown setting.now.input.now).bytes f.what }
        ensures goes { (read : Replies) (rules : Grammar) → NextIs rules f (literal (part bytes setting.now.grammar.now.bytes.items) (expr_in setting.now.grammar.now ends.left) (expr_in setting.now.grammar.now ends.right)) → GoesIf (record { read = read; grammar = rules; bytes = (I.Input.shown setting.now.input.now).bytes }) self.old (Runs f) self.new result }
        ensures kept { Kept self.old self.new }
    {
        let Some(w) = self.window_of(setting.grammar, ends, f, numbers) else {
            return f.next_try();
        };
        let wanted = setting.grammar.bytes_of(bytes);
        if w.len() != wanted.len() {
            return f.next_try();
        }
        self.state.reach = self.state.reach.join(w);
        if !same_at(setting.input, w, wanted) {
            return f.next_try();
        }
        Mode::Runs(f.onward(f.used.join(w)))
    }

    // A call puts its start aside and begins another.
    fn run_call<I: Input, R: FieldReader>(
        &mut self,
        setting: &Setting<I, R>,
        number: u16,
        ends: Ends,
        f: Frame,
        numbers: &mut [u64; PENDING],
    ) -> Mode
        requires table { f.what.node < self.old.count }
        requires frame { (f.place ≤ f.next) × (f.next < 65536) × (f.alt < 18446744073709551615) }
        requires stack { length (held self.old.stack) < length (room self.old.stack) }
        ensures goes { (rules : Grammar) → NextIs rules f (call number (expr_in setting.now.grammar.now ends.left) (expr_in setting.now.grammar.now ends.right)) → GoesAnyhow rules self.old (Runs f) self.new result }
        ensures kept { Kept self.old self.new }
    {
        let Some(window) = self.window_of(setting.grammar, ends, f, numbers) else {
            return f.next_try();
        };
        let _ = self.stack.push(f.onward(f.used));
        Mode::Begins(Start {
            number,
            parent: f.what.node,
            term: f.next,
            node: self.count,
            window,
        })
    }

    // A start whose terms have all run gets its node.
    fn finish(&mut self, f: Frame) -> Mode
        requires { f.what.node < length self.old.nodes.now }
        ensures goes { (rules : Grammar) → todo_of rules f ≡ [] → GoesAnyhow rules self.old (Runs f) self.new result }
        ensures kept { Kept self.old self.new }
    {
        let c = f.what;
        self.nodes[c.node] = c.done(f.alt, f.used, self.nodes[c.node].slots);
        Mode::Returns(c.node)
    }
}
