//! A soak of a volume: turns of calls that are drawn from a number, answered as the flat table is, and a summary of them.
#![tactic(auto)]

mod draws;
mod soaking;
mod summary;
mod turns;

pub use soaking::{Summary, soak};
