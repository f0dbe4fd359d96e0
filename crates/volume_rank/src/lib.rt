//! What each volume that a file may hold reads, and which reads best.
#![tactic(auto)]

mod collecting;
mod found;
mod ordering;
mod ranges;

pub use collecting::{TooFew, collect};
pub use found::{Found, MetaRange};
pub use ordering::next_best;
