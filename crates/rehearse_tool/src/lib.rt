//! The command `rehearse`: what a power cut may leave in a run of a script, and whether it keeps the promises that the script's comments make.
#![tactic(auto)]

mod answer;
mod files;
mod input;
mod plan;
mod tool;

pub use plan::is_accepted;
pub use tool::rehearse_tool;
