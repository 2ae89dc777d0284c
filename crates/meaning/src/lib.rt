// The written meaning of a grammar: what a parse of a list of bytes comes to. `specs` states it; this crate has the
// types that it speaks of, the small functions that an engine needs of it, and its theorems.
#![tactic(auto)]

pub mod answer;
pub mod laws;
pub mod node;
pub mod run;

pub use answer::Answer;
pub use node::{Node, find_call};
pub use run::{Limits, Start, State};
