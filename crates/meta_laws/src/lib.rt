//! A law of the number of meta bytes: which one reads most of a volume.
#![tactic(auto)]

pub mod telling;
