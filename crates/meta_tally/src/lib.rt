//! How many files of an image are whole by each number of meta bytes, in one walk over its pages.
#![tactic(auto)]

mod clearing;
mod heads;
mod names;
mod tally;
mod wholes;

pub use tally::{WORK, tally_files};
