//! The top call: a command in words, a board, a script, a folder and lent memory in; a status out, and what the
//! board said.
#![tactic(auto)]

mod checking;
mod extracting;
mod finishing;
mod laws;
mod listing;
mod making;
mod mapping;
mod plan;
mod scrubbing;
mod soaking;
mod tool;
mod words;

pub use laws::made_volumes_tell_their_meta;
pub use plan::is_accepted;
pub use tool::spiffs_tool;
