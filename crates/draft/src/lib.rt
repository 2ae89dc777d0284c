// A draft of a grammar: rules by name, as texts wrote them.
#![tactic(auto)]

mod counts;
mod load;
mod refused;
mod store;

pub use refused::Refused;
pub use store::Draft;
