//! The trusted edge: chips that are files of the host, standard output and input, and a folder of the host. No contract
//! can say what these hold; each type counts its faults, and tells what failed first.
#![tactic(auto)]

mod bad_name;
mod board;
mod chip;
mod file;
mod file_id;
mod folder;
mod held;
mod host_file;
mod limit;
mod names;
mod one_file;
mod opening;
mod put;
mod replacing;
mod shown;
mod source;
mod trouble;

pub use bad_name::BadName;
pub use board::{StdBoard, Unfinished, busy_chip, finish_row, row_trouble};
pub use chip::{Access, FileChip};
pub use file_id::FileId;
pub use folder::StdFolder;
pub use held::HeldFile;
pub use host_file::PassedOver;
pub use limit::SizeLimit;
pub use one_file::is_one_file;
pub use opening::{Bounds, not_made, want_same};
pub use replacing::replace_file;
pub use shown::Shown;
pub use source::StdSource;
pub use trouble::{NoChip, Step, Trouble};
