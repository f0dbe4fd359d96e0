//! The check of a mounted volume, after which it may be written.
#![tactic(auto)]

mod blank;
mod checking;
mod culling;
mod damaged;
mod doubled;
mod entries;
mod marking;
mod parting;
mod report;
mod spoiled;
mod surveying;
mod tallies;
mod unwanted;
mod uses;

pub use checking::check_stages;
pub use parting::{Parting, Survey};
pub use report::{CheckErr, Report};
pub use surveying::{judge_parting, survey};
