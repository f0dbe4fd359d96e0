//! How many blocks a volume needs at least for the files of a folder.
#![tactic(auto)]

mod least;
mod told;

pub use least::least_blocks;
pub use told::{Need, Shape};
