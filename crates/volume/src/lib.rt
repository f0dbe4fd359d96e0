//! A mounted volume and its file calls.
#![tactic(auto)]

mod calls;
mod checking;
mod collecting;
mod map_calls;
mod mapping;
mod own;
mod saying;
mod scrubbing;
mod settling;
mod space;
mod stage;
mod typed;
mod volume;
mod write;

pub use fd_table::FdSlot;
pub use file_calls::{Space, Told};
pub use geometry::{GeoErr, Geometry, MagicKind};
pub use ix_map::{IxMap, map_need};
pub use map_calls::{MapErr, MapRefusal};
pub use stage::Stage;
pub use table_model::{Call, Differ, FsErr, Info, Meta, Name, Reply, Stat, Tag, Whence};
pub use vol_check::{CheckErr, Report};
pub use vol_mount::{
    AcceptErr, FormatErr, Lent, MountErr, Part, Returned, accept, accept_check, format,
};
pub use volume::{Unmounted, Volume};
pub use wear_scrub::Scrub;
