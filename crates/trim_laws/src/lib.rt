//! Laws of what each step keeps up: header pages that name no data page behind the last one of their file, and erase counts.
#![tactic(auto)]

pub mod trimming;
pub mod wearing;
