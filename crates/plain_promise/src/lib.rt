//! The judge of promises: whether each table that a power cut in a run of a script may leave keeps the promises that the script's comments
//! make, as a plain program over the flat table. It takes an allocator, and runs no engine.
#![tactic(auto)]

mod broken;
mod ends;
mod grammar;
mod lines;
mod listing;
mod promise;
mod sort;
mod text;
mod value;
mod verdict;
mod walk;
mod words;

pub use broken::Broken;
pub use grammar::Fault;
pub use listing::list_tables;
pub use text::put_files;
pub use verdict::{Verdict, rehearse};
