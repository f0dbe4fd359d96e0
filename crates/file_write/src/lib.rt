//! Page steps that make and write files: after each cut the table is the one before or the one after.
#![tactic(auto)]

mod append;
mod batches;
mod beside;
mod building;
mod create;
mod filling;
mod further;
mod overwriting;
mod readying;
mod relinking;
mod seeking;
mod tails;

pub use append::append_step;
pub use batches::append_room;
pub use create::create_step;
pub use overwriting::overwrite_step;
pub use readying::ready_tail;
pub use tails::is_tail_ready;
