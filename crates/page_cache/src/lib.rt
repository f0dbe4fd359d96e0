//! A device that keeps copies of pages in lent bytes, so that a page that is held is not read again: `Cached`, or the functions over
//! a device and frames that stand apart.
#![tactic(auto)]

mod cached;
mod frame;
mod frames;
mod through;

pub use cached::Cached;
pub use through::{
    bring, brought, erase_through, held_page, hold_page, peek_page, program_through, read_page,
    read_through,
};
