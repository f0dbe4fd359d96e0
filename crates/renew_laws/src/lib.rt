//! Laws of file writes: a page that takes the place of another, pages, bytes and entries added, and what a file then reads.
#![tactic(auto)]

pub mod appending;
pub mod idling;
pub mod overwriting;
pub mod priming;
pub mod recopying;
pub mod renewing;
pub mod reserving;
pub mod tailing;
