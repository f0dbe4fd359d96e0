//! How large a new file may be on a volume, by how full that is.
#![tactic(auto)]

mod largest;

pub use largest::largest_file;
