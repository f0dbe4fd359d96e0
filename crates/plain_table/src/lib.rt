//! The flat table of files as a plain program, which answers each call as the flat model does, and tells what a power cut may leave. It
//! takes an allocator; a judge of traces and tests compare volumes with it.
#![tactic(auto)]

mod answers;
mod by_name;
mod bytes;
mod changes;
mod copies;
mod counts;
mod file;
mod flat;
mod moment;
mod names;
mod opening;
mod parts;
mod said;
mod same;
mod search;
mod slots;
mod steps;
mod through;
mod window;

pub use file::PlainFile;
pub use flat::Flat;
pub use moment::{PlainMoment, Went};
pub use said::Said;
pub use same::are_same;
pub use slots::PlainOpen;
pub use steps::{cuts_file, is_refusal};
pub use window::PlainWaiting;
