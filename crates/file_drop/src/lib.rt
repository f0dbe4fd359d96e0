//! Page steps that remove or truncate files: after each cut the table is the one before or the one after.
#![tactic(auto)]

mod pages;
mod remove;
mod truncate;

pub use remove::remove_step;
pub use truncate::truncate_step;
