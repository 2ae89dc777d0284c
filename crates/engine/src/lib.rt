// Parses a window of an input by a rule of a sealed grammar, in tables that the caller lends. Each small step of it is
// proved to be a step of the machine that computes the meaning.
//
//     let setting = Setting { grammar: &grammar, readers: &Builtin, input: &input };
//     let outcome = setting.parse(request, &mut frames, &mut nodes)?;
#![tactic(auto)]

mod begin;
mod conclude;
mod drive;
pub mod frame;
pub mod mode;
pub mod outcome;
mod parse;
mod places;
mod runs;
mod setting;
mod steps;
mod tables;
mod terms;
#[cfg(test)]
mod tests;

pub use frame::Frame;
pub use outcome::{Outcome, Refusal};
