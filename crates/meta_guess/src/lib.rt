//! How many files of a volume are whole by its META, and which other META would read more of them. Nothing is written.
#![tactic(auto)]

mod counting;
mod counts;
mod guessing;

pub use counting::count_files;
pub use counts::{Counts, Guess};
pub use guessing::{guess_if_damaged, guess_meta, with_meta};
