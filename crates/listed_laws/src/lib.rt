//! Laws of the list of what is found: a tidy volume stands in it.
#![tactic(auto)]

pub mod listing;
