//! How many ids of a volume are doubled: those with more than one header page.
#![tactic(auto)]

mod counting;
mod laws;

pub use counting::{WORK, count_doubled};
pub use laws::neat_volumes_double_none;
