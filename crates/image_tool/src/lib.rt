//! What a tool says of a chip that it only reads, the list of its files, and a folder that these files are put into.
#![tactic(auto)]

mod damaged;
mod error;
mod extracting;
mod lines;
mod listing;
mod putting;
mod records;

pub use error::{ExtractErr, ToolErr};
pub use extracting::extract;
pub use listing::list;
