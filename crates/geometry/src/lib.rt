//! The numbers of a SPIFFS volume: pages, blocks, lookup pages, and what they make.
#![tactic(auto)]

mod error;
mod geometry;
mod magic;
mod rules;

pub use error::GeoErr;
pub use geometry::Geometry;
pub use magic::MagicKind;
