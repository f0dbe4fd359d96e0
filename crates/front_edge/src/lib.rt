//! Chips for commands that name a volume inside a file, or work on a copy of it: a part of a file as a chip, and a copy in memory.
#![tactic(auto)]

mod copied;
mod part;

pub use copied::{CopyErr, blank_chip, copy_of};
pub use part::{HostChip, PartChip};
