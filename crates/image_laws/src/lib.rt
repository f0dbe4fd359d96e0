//! Laws of what programs, kills and erases do to what a flash image means.
#![tactic(auto)]

pub mod blocks;
pub mod counting;
pub mod killing;
pub mod laws;
pub mod removing;
pub mod renewing;
pub mod sharing;
pub mod sound;
pub mod staging;
pub mod tidying;
