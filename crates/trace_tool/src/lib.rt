//! The command `trace`: runs a script on a copy of a volume in memory, judges what that run did, and tells the verdict.
#![tactic(auto)]

mod copying;
mod ending;
mod plan;
mod rehearsing;
mod tool;

pub use plan::is_accepted;
pub use tool::{Traced, trace_tool};
