//! A tree of folders of the host, shown as one flat folder: each plain file of it is an entry whose name stands for a file's name on a
//! volume. So `host_edge::StdFolder` over it is a folder of all files of the tree.
#![tactic(auto)]

mod known;
mod listing;
mod making;
mod tree;

pub use known::{Known, KnownFiles};
pub use listing::Listed;
pub use tree::TreeFiles;
