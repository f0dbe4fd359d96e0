//! Files of a volume as files of a tree of folders: which path of the host a name has, and which name a path has. A path never leads out
//! of the folder that it begins in, whatever the name is, and different names have different paths.
#![tactic(auto)]

mod clashing;
mod decoding;
mod laws;
mod naming;
mod parting;
mod spelling;

pub use clashing::is_clash;
pub use decoding::decoded;
pub use laws::{
    different_names_have_different_paths, files_are_no_folders, names_are_found_again,
    paths_stay_inside, trees_come_back,
};
pub use naming::{ASIDE, name_of, path_of};
pub use spelling::push_spelled;
