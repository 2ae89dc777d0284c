// The slots of a rule: its different attribute names, in the order of their first standing.
#![tactic(auto)]

mod collect;
mod table;

pub use collect::slots_of;
pub use table::Slots;
