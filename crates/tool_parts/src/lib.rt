//! What the commands share: their numbers and lent memory, how they end and what is printed then, and how a volume is mounted and checked.
#![tactic(auto)]

mod accepting;
mod buffers;
mod ending;
mod mounting;
mod words;

pub use accepting::{LINE_NEED, read_geometry, with_room, written_geometry};
pub use buffers::{Buffers, Lengths, measure};
pub use ending::{Closing, Ending, close_with, closing_line, conclude, put, put_count};
pub use mounting::{begin, check_ending, mount_and_check, mount_ending};
pub use words::{Numbers, chip_size_of, number_at, read_numbers, unit_of, word};
