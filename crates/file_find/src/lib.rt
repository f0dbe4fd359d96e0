//! The files of a volume: why one isn't whole, marks of the header pages of files, and files one after the other in order of ids.
#![tactic(auto)]

mod ids;
mod judging;
mod listing;
mod marks;
mod no_damage;
mod windows;

pub use judging::judge;
pub use listing::{find_file, next_damaged, next_file};
pub use marks::{damage, find_name, next_marked, next_with, survey};
pub use no_damage::none_damaged;
