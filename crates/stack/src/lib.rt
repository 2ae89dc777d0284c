// A stack over memory that the caller lends. It takes none of its own: a full slice refuses a push.
//
//     let mut slots = [0u64; 8];
//     let mut numbers = Stack::new(&mut slots);
//     numbers.push(7)?;
#![tactic(auto)]

ghost use Rattle.std.specs.Prelude.{◌≤◌, length};

mod calls;
pub mod refusal;
pub mod runs;

pub use refusal::StackRefusal;
pub use runs::StackCall;

/// A stack over a lent slice. The first `len` slots are held, the latest entry in the last of them.
#[derive(Drop)]
pub struct Stack<'a, T> {
    slots: &'a mut [T],
    len: usize,
    ghost fits: { len ≤ length slots.now },
}
