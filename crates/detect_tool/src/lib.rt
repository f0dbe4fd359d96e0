//! The command `detect`: which volumes a chip may hold, said best first.
#![tactic(auto)]

mod finding;
mod laws;
mod lines;
mod memory;
mod refusing;
mod saying;
mod tool;
mod words;

pub use laws::tidy_volumes_are_found;
pub use memory::{Memory, blank_place, found_need};
pub use tool::detect_tool;
