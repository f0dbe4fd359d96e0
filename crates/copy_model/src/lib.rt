//! Copies of files onto another volume, on flat tables: which tables a copy makes, what it owes for each name, what each of its calls
//! is answered, and where it stops for want of room.
#![tactic(auto)]

pub mod answers;
mod err;
pub mod keeping;
pub mod rooms;

pub use err::{Copied, CopyErr};
