//! Laws that tie the header pages of a tidy image to its flat table.
#![tactic(auto)]

pub mod heads;
pub mod ids;
pub mod room;
