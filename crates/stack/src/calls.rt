ghost use Rattle.std.specs.Prelude.{◌≡◌, List, [], ◌∷◌, length, take, drop, if◌then◌else◌, nat_lt};
ghost use Rattle.stack.specs.Refusals.{answer_number};
ghost use Rattle.stack.specs.Stacks.{held, room, push_answer, pop_answer, pop_number, top_of, held_after_push, room_after_push};

use crate::Stack;
use crate::refusal::StackRefusal;

impl<'a, T: Copy> Stack<'a, T> {
    /// A stack that holds nothing yet. The slots keep what they had.
    pub fn new(slots: &'a mut [T]) -> Stack<'a, T>
        ensures held { held result ≡ [] }
        ensures room { room result ≡ slots.old }
        ensures lender { result.slots.ghost_name ≡ slots.entry.ghost_name }
    {
        Stack { slots, len: 0 }
    }

    /// How many entries are held.
    pub fn depth(&self) -> usize
        ensures { result ≡ length (held self.now) }
    {
        self.entries().len()
    }

    /// Puts an entry on top, in the first slot that is not held.
    pub fn push(&mut self, entry: T) -> Result<(), StackRefusal>
        ensures answer { result ≡ push_answer (room self.old) (held self.old) }
        ensures number { answer_number result ≡ (if nat_lt (length (held self.old)) (length (room self.old)) then 0 else 28) }
        ensures held { held self.new ≡ held_after_push (room self.old) (held self.old) entry }
        ensures room { room self.new ≡ room_after_push (room self.old) (held self.old) entry }
        ensures lender { self.new.slots.ghost_name ≡ self.old.slots.ghost_name }
    {
        if self.len >= self.slots.len() {
            return Err(StackRefusal::Full);
        }
        self.slots[self.len] = entry;
        self.len += 1;
        Ok(())
    }

    /// Takes off the latest entry. No slot is written.
    pub fn pop(&mut self) -> Result<T, StackRefusal>
        ensures answer { result ≡ pop_answer (held self.old) }
        ensures number { answer_number result ≡ pop_number (held self.old) }
        ensures held { held self.new ≡ drop 1 (held self.old) }
        ensures room { room self.new ≡ room self.old }
        ensures lender { self.new.slots.ghost_name ≡ self.old.slots.ghost_name }
    {
        if self.len == 0 {
            return Err(StackRefusal::Empty);
        }
        self.len -= 1;
        Ok(self.slots[self.len])
    }

    /// The latest entry, which stays.
    pub fn top(&self) -> Option<T>
        ensures { result ≡ top_of (held self.now) }
    {
        self.entries().last().copied()
    }

    // The slots that are held, the earliest entry first.
    fn entries(&self) -> &[T]
        ensures { result.now ≡ take self.now.len (room self.now) }
    {
        &self.slots[0..self.len]
    }
}
