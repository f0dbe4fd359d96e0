//! The script language: the call that a line spells, and the line that tells a reply.
#![tactic(auto)]

mod laws;
mod line;
mod number;
mod reply;
mod text;
mod words;

pub use laws::{
    each_call_is_spelled, lines_are_parted, names_are_read_back, numbers_are_read_back,
};
pub use line::{BadLine, parse_line};
pub use number::parse_number;
pub use reply::{put, put_behind_space, put_count, put_number, reply_text};
