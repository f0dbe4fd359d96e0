//! The top call of a copy of a volume onto another: the words of the command, the device that is read, the one that is
//! written, and lent memory for each in; a status out, and what the second device said.
#![tactic(auto)]

mod copying;
mod ending;
mod plan;
mod surveying;
mod tool;
mod words;

pub use tool::{copy_tool, is_accepted};
