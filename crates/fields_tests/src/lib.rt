// Field readers and the stack as a user meets them: a reader of one's own, generic code over any reader, one stack for every kind of
// entry; and the tests.
#![tactic(auto)]

pub mod any_reader;
pub mod length24;
#[cfg(test)]
mod readers;
#[cfg(test)]
mod sides;
#[cfg(test)]
mod stacks;
#[cfg(test)]
mod told;
pub mod two;
