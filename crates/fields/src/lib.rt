// Field readers: what stands in a window of an input, by number.
//
//     let reader = Joined { left: Builtin, right: mine };
//     let size = reader.read(33, &input, Window { left: 0, right: 2 })?;
#![tactic(auto)]

pub mod builtin;
pub mod joined;
pub mod kind;
pub mod laws;
pub mod lent;
mod little;
pub mod names;
mod raw;
pub mod reader;
pub mod reading;

pub use builtin::Builtin;
pub use joined::Joined;
pub use kind::Kind;
pub use names::{reader_name, reader_number};
pub use reader::FieldReader;
pub use reading::Reading;
