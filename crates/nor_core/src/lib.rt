//! NOR flash as the file system sees it, and where a script comes from. A driver of a chip implements `Nor`.
#![tactic(auto)]

mod device;
mod generator;
mod source;
mod state;

pub use device::{Board, Failed, Mark, MemErr, Nor};
pub use generator::draw;
pub use source::Source;
pub use state::NorState;
