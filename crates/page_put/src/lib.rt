//! Putting pages onto the chip, one program at a time and in the order that survives a power cut.
#![tactic(auto)]

mod fields;
mod fresh;
mod killing;
mod put;
mod rows;

pub use fields::{fill_tail, mark_removed, name_slot};
pub use fresh::fresh_block;
pub use killing::kill;
pub use put::{put_page, puts_by_programs};
