ghost use Rattle.std.specs.Prelude.{◌≡◌, ◌≤◌, length, Ok};
ghost use Rattle.input.specs.Bytes.{window_of};
ghost use Rattle.meaning.specs.Meaning.{parse as meant, root as meant_root};
ghost use Rattle.sealed.specs.Grammars.{grammar_of};
ghost use Rattle.engine.specs.Parses.{told, After, leaves, allowed, parse_after};
ghost use Rattle.engine.specs.declared.mode.Mode.TheVariants.{Begins};

use crate::frame::Frame;
use crate::mode::Mode;
use crate::outcome::{Outcome, Refusal};
use crate::places::{clear, clear_rest, move_nodes, place};
use crate::setting::Setting;
use crate::tables::Tables;
use evaluate::PENDING;
use fields::FieldReader;
use input::{Input, Window, WindowInput};
use meaning::{Limits, Node, Start, State};
use stack::Stack;

// What is asked: a window of the input by a rule, in at most so many starts.
#[derive(Clone, Copy)]
pub(crate) struct Request {
    pub(crate) rule: u16,
    pub(crate) window: Window,
    pub(crate) budget: u64,
}

impl<'a, I: Input, R: FieldReader> Setting<'a, I, R> {
    /// Parses what is asked.
    pub(crate) fn parse(
        &self,
        request: Request,
        frames: &mut [Frame],
        nodes: &mut [Node],
    ) -> Result<Outcome, Refusal>
        ensures { ◌≡◌ {A = After} (record { outcome = result; frames = frames.new; nodes = nodes.new }) (parse_after (R.FieldReader.meaning self.now.readers.now) (grammar_of self.now.grammar.now) (I.Input.shown self.now.input.now).bytes request.rule request.window.left request.window.right request.budget frames.old nodes.old) }
    {
        if usize::from(request.rule) >= self.grammar.rule_count() {
            return Err(Refusal::UnknownRule);
        }
        if !request.window.is_in(self.input.len()) {
            return Err(Refusal::BadWindow);
        }
        if !permitted(request.budget, frames.len(), nodes.len()) {
            return Err(Refusal::BadLimits);
        }
        Ok(self.parse_window(request, frames, nodes))
    }

    // Parses a window of the input; nothing is refused.
    fn parse_window(&self, request: Request, frames: &mut [Frame], nodes: &mut [Node]) -> Outcome
        requires { (request.window.left ≤ request.window.right) × (request.window.right ≤ length (I.Input.shown self.now.input.now).bytes) }
        ensures { ◌≡◌ {A = After} (record { outcome = Ok result; frames = frames.new; nodes = nodes.new }) (leaves request.window.left (length frames.old) (length nodes.old) (meant (R.FieldReader.meaning self.now.readers.now) (grammar_of self.now.grammar.now) (record { budget = request.budget; frames = length frames.old; nodes = length nodes.old }) request.rule (window_of (I.Input.shown self.now.input.now).bytes request.window.left request.window.right))) }
    {
        let outcome = self.run_window(request, frames, nodes);
        clear(frames);
        move_nodes(&mut nodes[..outcome.nodes], request.window.left);
        clear_rest(nodes, outcome.nodes);
        Outcome {
            reach: place(outcome.reach, request.window.left),
            ..outcome
        }
    }

    // Parses a window of the input, in places of the window; the frame table holds anything then.
    fn run_window(&self, request: Request, frames: &mut [Frame], nodes: &mut [Node]) -> Outcome
        ensures told { told result nodes.new ≡ meant (R.FieldReader.meaning self.now.readers.now) (grammar_of self.now.grammar.now) (record { budget = request.budget; frames = length frames.old; nodes = length nodes.old }) request.rule (window_of (I.Input.shown self.now.input.now).bytes request.window.left request.window.right) }
        ensures count { result.nodes ≤ length nodes.new }
    {
        let view = WindowInput::new(self.input, request.window);
        let setting = Setting {
            grammar: self.grammar,
            readers: self.readers,
            input: &view,
        };
        let limits = Limits {
            budget: request.budget,
            frames: frames.len(),
            nodes: nodes.len(),
        };
        let mut tables = Tables {
            limits,
            stack: Stack::new(frames),
            nodes,
            count: 0,
            state: State::default(),
        };
        let mut numbers = [0u64; PENDING];
        let end = tables.drive(&setting, root(request.rule, view.len()), &mut numbers);
        let outcome = tables.conclude(end);
        // Taken apart, the tables give back what was lent.
        let Tables {
            stack: _,
            nodes: _nodes,
            ..
        } = tables;
        outcome
    }
}

// Whether the budget and the tables' lengths are allowed.
#[tactic(auto, using(std::proofs::lemmas::Bool::Decides::nat_tests), unfolding(crate::specs::Parses::allowed))]
fn permitted(budget: u64, frames: usize, nodes: usize) -> bool
    ensures { result ≡ allowed budget frames nodes }
{
    (1..=1_000_000).contains(&budget)
        && (1..=4096).contains(&frames)
        && (1..=65_535).contains(&nodes)
}

// A rule is begun on all of `len` bytes.
#[tactic(auto, unfolding(meaning::specs::Meaning::root))]
fn root(rule: u16, len: usize) -> Mode
    ensures { result ≡ Begins (meant_root rule len) }
{
    Mode::Begins(Start {
        number: rule,
        window: Window {
            left: 0,
            right: len,
        },
        ..Start::default()
    })
}
