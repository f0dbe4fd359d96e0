//! Reading a file: its record from its header page, and its bytes by its index pages from its data pages.
#![tactic(auto)]

mod read;
mod stat;

pub use read::{no_data, no_header, read_at, read_from, size_in};
pub use stat::{stat_at, stat_in};
