// The value of an expression, run from its code over a stack of pending numbers.
#![tactic(auto)]

ghost use Rattle.std.specs.Prelude.{◌≡◌, ◌-◌, drop};
ghost use Rattle.stack.specs.Stacks.{held};
ghost use Rattle.input.specs.declared.window.Window.{Window as Extent};
ghost use Rattle.meaning.specs.Values.{called, value as value_of};
ghost use Rattle.sealed.specs.Grammars.{expr_in};
ghost use Rattle.evaluate.specs.Reached.{progress};
ghost use Rattle.evaluate.specs.Pending.{leaf_of, operated, latest as latest_of, next_value, values_left, last_value, LeftAs};

use arena::Span;
use meaning::{Node, Start, find_call};
use operators::Op;
use sealed::{Code, Sealed};
use stack::Stack;

/// How many numbers may wait: as many as a grammar has code.
pub const PENDING: usize = 1024;

/// Where a start under way has come: its alternative's slots, and the nodes below it.
#[derive(Clone, Copy)]
pub struct Reached<'a> {
    pub start: Start,
    pub slots: &'a [u64],
    pub below: &'a [Node],
}

impl<'a> Reached<'a> {
    /// The value of the expression whose code is a part of a grammar's. The numbers are room to work in.
    pub fn value(&self, grammar: &Sealed, span: Span, numbers: &mut [u64; PENDING]) -> Option<u64>
        ensures { (used : Extent) → result ≡ value_of self.now.start (progress self.now used) (expr_in grammar.now span) }
    {
        let codes = grammar.code_of(span);
        let mut stack = Stack::new(&mut numbers[0..PENDING]);
        for code in codes {
            let v = self.next_number(*code, &mut stack)?;
            let _ = stack.push(v);
        }
        last_number(&mut stack)
    }

    // What the next code comes to.
    #[tactic(auto, using(crate::proofs::Numbers::taken_part, crate::proofs::Numbers::left_part), unfolding(crate::specs::Pending::next_value, crate::specs::Pending::values_left))]
    fn next_number(&self, code: Code, stack: &mut Stack<u64>) -> Option<u64>
        ensures answer { (used : Extent) → result ≡ next_value self.now.start (progress self.now used) code (held stack.old) }
        ensures left { LeftAs stack.old stack.new (values_left code (held stack.old)) }
    {
        match code {
            Code::Apply(op) => operate(op, stack),
            Code::Bracket => latest(stack),
            _ => self.part_value(code),
        }
    }

    // The value of a part; an operator or brackets alone have none.
    #[tactic(auto, unfolding(meaning::specs::Values::value, meaning::specs::Values::if_some, operators::specs::Applied::applied))]
    fn part_value(&self, code: Code) -> Option<u64>
        ensures { (used : Extent) → result ≡ value_of self.now.start (progress self.now used) (leaf_of code) }
    {
        match code {
            Code::Number(n) => Some(n),
            Code::Eoi => Some(self.start.window.len() as u64),
            Code::Own(k) => self.slots.get(k).copied(),
            Code::OfCall(t, k) => self.call(t)?.slots.get(k).copied(),
            Code::StartOf(t) => Some(self.offset(self.call(t)?.used.left)),
            Code::EndOf(t) => Some(self.offset(self.call(t)?.used.right)),
            Code::Apply(_) | Code::Bracket => None,
        }
    }

    // The node of an earlier call, by its term.
    fn call(&self, term: usize) -> Option<Node>
        ensures { result ≡ called self.now.start.node term self.now.below.now }
    {
        find_call(self.start.node, term, self.below)
    }

    // A place, from the left end of the start's window.
    fn offset(&self, place: usize) -> u64
        ensures { result ≡ place - self.now.start.window.left }
    {
        place.saturating_sub(self.start.window.left) as u64
    }
}

// An operator takes its two sides off the stack.
#[tactic(auto, using(crate::proofs::Numbers::op_gone, crate::proofs::Numbers::op_alone, crate::proofs::Numbers::op_two))]
fn operate(op: Op, stack: &mut Stack<u64>) -> Option<u64>
    ensures answer { result ≡ operated op (held stack.old) }
    ensures left { LeftAs stack.old stack.new (drop 2 (held stack.old)) }
{
    let q = stack.pop().ok()?;
    let p = stack.pop().ok()?;
    op.apply(p, q)
}

// The latest number is taken off the stack.
#[tactic(auto, using(crate::proofs::Numbers::latest_is))]
fn latest(stack: &mut Stack<u64>) -> Option<u64>
    ensures answer { result ≡ latest_of (held stack.old) }
    ensures left { LeftAs stack.old stack.new (drop 1 (held stack.old)) }
{
    stack.pop().ok()
}

// The one number that is left.
#[tactic(auto, using(crate::proofs::Numbers::fin_none, crate::proofs::Numbers::fin_one, crate::proofs::Numbers::fin_more))]
fn last_number(stack: &mut Stack<u64>) -> Option<u64>
    ensures answer { result ≡ last_value (held stack.old) }
    ensures lender { stack.new.slots.ghost_name ≡ stack.old.slots.ghost_name }
{
    let v = stack.pop().ok()?;
    (stack.depth() == 0).then_some(v)
}
