//! The files of a folder are put onto a volume through its calls, numbered from 1 in the folder's order.
#![tactic(auto)]

mod files;
mod performing;
mod pieces;
mod put_err;

pub use files::put_files;
pub use put_err::PutErr;
