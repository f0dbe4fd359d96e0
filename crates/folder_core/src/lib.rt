//! A folder of named files, as the image tools see it, and one in memory. Contracts speak of a folder by the meanings of
//! `FolderState`: the names and sizes of its files, which are always told, and their bytes, which may not be.
#![tactic(auto)]

mod file;
mod folder;
mod mem_folder;
mod state;

pub use folder::Folder;
pub use mem_folder::MemFolder;
pub use state::FolderState;
