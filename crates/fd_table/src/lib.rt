//! The table of open descriptors, in slots that the caller lends.
#![tactic(auto)]

mod error;
mod slot;
mod slots;
mod table;

pub use error::FdErr;
pub use slot::FdSlot;
pub use slots::{close_file, first_closed, open_slot, pull_file_back, put};
pub use table::FdTable;
