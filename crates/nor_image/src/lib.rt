//! Bytes in lent memory, as a device that can only be read.
#![tactic(auto)]

mod image;

pub use image::Image;
