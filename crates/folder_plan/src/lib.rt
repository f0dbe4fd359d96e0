//! Whether an image can be made of a folder: which name can't be that of a file, and whether the files fit.
#![tactic(auto)]

mod names;
mod refusing;
mod sizes;

pub use names::name_of;
pub use refusing::{Refusal, refusal_of};
