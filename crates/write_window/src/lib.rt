//! The write window: a run of written bytes that isn't on the chip yet.
#![tactic(auto)]

mod window;

pub use window::{Held, begin, push};
