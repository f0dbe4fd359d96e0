//! Files of one volume are copied onto another: each under a working name until it is whole, so that a name has what it had, nothing, or its
//! copy at each cut.
#![tactic(auto)]

mod asking;
mod beginning;
mod comparing;
mod copying;
mod filling;
mod giving_up;
mod placing;
mod reading;

pub use copy_model::{Copied, CopyErr};
pub use copying::copy_all;
