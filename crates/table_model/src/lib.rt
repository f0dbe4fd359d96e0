//! The flat table that a volume stands for, and the calls, replies and refusals that speak of it.
#![tactic(auto)]

mod bytes;
mod call;
mod error;
mod flags;
mod reply;

pub use bytes::{Meta, Name, ShortBytes};
pub use call::{Call, Whence};
pub use error::{Differ, FsErr, Tag};
pub use flags::OpenFlags;
pub use reply::{Info, Reply, Stat};
