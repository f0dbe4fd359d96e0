//! What file calls do to a device and its descriptors, where no written bytes wait.
#![tactic(auto)]

mod calls;
mod collecting;
mod create;
mod live_pages;
mod looking;
mod names;
mod opening;
mod reading;
mod records;
mod remove;
mod restating;
mod room;
mod slots;
mod space;
mod told;
mod truncating;
mod writing;

pub use calls::call_in;
pub use reading::record_of;
pub use room::have_room;
pub use slots::{opened, tell_in};
pub use space::{Space, space_of};
pub use told::Told;
pub use writing::{write_all, write_sized};
