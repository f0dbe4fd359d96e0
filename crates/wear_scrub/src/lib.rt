//! Evening out how blocks wear: the least worn block in use is cleaned, so that it is erased and gets a free block's turn.
#![tactic(auto)]

mod ages;
mod oldest;
mod scrubs;

pub use scrubs::{Scrub, scrub_pick, scrub_step};
