//! Formatting and mounting, and reading a volume of any image.
#![tactic(auto)]

mod calls;
mod formatting;
mod lent;
mod mounting;
mod reader;
mod reading;

pub use fd_table::FdSlot;
pub use formatting::format;
pub use geometry::{GeoErr, Geometry, MagicKind};
pub use image_model::Damage;
pub use lent::{AcceptErr, FormatErr, Lent, MountErr, Part, ReaderLent, ReaderReturned, Returned};
pub use mounting::{accept, accept_check, accept_reader, mount};
pub use reader::Reader;
pub use reading::next_record;
pub use table_model::{Differ, FsErr, Meta, Name, Stat, Tag};
