// The script language of `trial`: lines, words, numbers, hexadecimal bytes and commands.
#![tactic(auto)]

pub mod block;
pub mod command;
pub mod hex;
pub mod number;
pub mod piece;
