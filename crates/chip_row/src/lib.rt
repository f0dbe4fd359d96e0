//! Chips of one size end to end, as one device. Contracts speak of a chip by the meanings of `ChipState`; all chips of a
//! row have one clock, so that what a cut may leave of the row is told by what it may leave of each at one moment.
#![tactic(auto)]

mod answer;
mod boxed;
mod chip;
mod numbers;
mod one;
mod row;
mod row_nor;
mod state;

pub use chip::Chip;
pub use row::{ChipRow, RowErr, RowRefusal};
pub use state::ChipState;
