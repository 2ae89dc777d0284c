ghost use Rattle.std.specs.Prelude.{◌≡◌, length, if◌then◌else◌, Ok, Err, nat_lt, slice_set};
ghost use Rattle.stack.specs.declared.refusal.StackRefusal.TheVariants.{Empty};

use stack::{Stack, StackRefusal};

/// An unfinished piece of work, as a stack may hold it.
#[derive(Clone, Copy, PartialEq, Eq, Debug)]
pub struct Frame {
    pub rule: u16,
    pub left: u32,
    pub right: u32,
}

/// Pushes two entries and takes off the latest. When the stack is let go, the owner of the slots knows what stands in each of them.
pub fn push_two<T: Copy>(slots: &mut [T], first: T, second: T) -> Result<T, StackRefusal>
    ensures answer { result ≡ (if nat_lt 1 (length slots.old) then Ok second else (if nat_lt 0 (length slots.old) then Ok first else Err Empty)) }
    ensures slots { slots.new ≡ slice_set (slice_set slots.old 0 first) 1 second }
{
    let mut stack = Stack::new(slots);
    let _ = stack.push(first);
    let _ = stack.push(second);
    stack.pop()
}
