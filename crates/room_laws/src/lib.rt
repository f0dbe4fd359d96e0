//! The arithmetic of garbage collection: which blocks are cleaned, what cleanings keep, and where they stop.
#![tactic(auto)]

pub mod batching;
pub mod carrying;
pub mod choosing;
pub mod cleaning;
pub mod images;
pub mod leaving;
pub mod losing;
pub mod mending;
pub mod parting;
pub mod places;
pub mod recovery;
pub mod sorts;
pub mod steps;
pub mod stopping;
pub mod tagging;
pub mod takeover;
pub mod taking;
pub mod volumes;
pub mod ways;
