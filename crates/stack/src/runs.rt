ghost use Rattle.std.specs.Prelude.{◌≡◌, ◌-◌, length};
ghost use Rattle.stack.specs.Runs.{standing, call_answer, after_call, after_calls, Paired};
ghost use Rattle.stack.specs.Stacks.{held, room};

use crate::Stack;
use crate::refusal::StackRefusal;

/// A call that changes a stack.
#[derive(Clone, Copy, PartialEq, Eq, Debug)]
pub enum StackCall<T> {
    Push(T),
    Pop,
}

impl<'a, T: Copy> Stack<'a, T> {
    /// Makes one call; the entry that a pop gives is let go.
    pub fn make(&mut self, call: StackCall<T>) -> Result<(), StackRefusal>
        ensures answer { result ≡ call_answer (room self.old) (held self.old) call }
        ensures after { standing self.new ≡ after_call (standing self.old) call }
        ensures lender { self.new.slots.ghost_name ≡ self.old.slots.ghost_name }
    {
        match call {
            StackCall::Push(entry) => self.push(entry),
            StackCall::Pop => {
                let _ = self.pop()?;
                Ok(())
            }
        }
    }

    /// Makes the calls one after the other, whatever each answers. Calls that pair up, with room for them, leave the entries as they were.
    pub fn make_all(&mut self, calls: &[StackCall<T>])
        ensures after { standing self.new ≡ after_calls (standing self.old) calls.now }
        ensures paired { Paired 0 (length (room self.old) - length (held self.old)) calls.now → held self.new ≡ held self.old }
        ensures lender { self.new.slots.ghost_name ≡ self.old.slots.ghost_name }
    {
        for call in calls {
            let _ = self.make(*call);
        }
    }
}
