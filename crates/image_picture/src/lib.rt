//! What a chip looks like: a line a block, a sign a page; as text, and as SVG.
#![tactic(auto)]

mod drawing;
mod looking;
mod pieces;
mod signs;
mod style;
mod svg;

pub use drawing::draw;
pub use style::Style;
