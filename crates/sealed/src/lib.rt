// The grammar that can be parsed with: its names are resolved to numbers, and it is held in a few flat lists. A rule is a
// part of the alternatives, an alternative a part of the terms, an expression a part of the code.
#![tactic(auto)]

pub mod code;
pub mod grammar;

pub use code::Code;
pub use grammar::Sealed;
