//! A run: the volume of a board is mounted and checked, and the lines of a script are run on it as calls.
#![tactic(auto)]

mod call;
pub mod laws;
mod lines;
mod run;
mod script;

pub use run::run_on;
