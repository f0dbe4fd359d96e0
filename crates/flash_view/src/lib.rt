//! A volume's device, its geometry and the bytes lent for its work: pages, entries, and which pages are live.
#![tactic(auto)]

mod counts;
mod data_pages;
mod hints;
mod kinds;
mod live;
mod places;
mod sums;
mod view;
mod walk;

pub use counts::{BlockCounts, Sort, with_free, with_one, without_one};
pub use kinds::{Kind, StepErr};
pub use live::is_named;
pub use places::{block_of, entry_page, is_entry_page};
pub use sums::{Sums, takes};
pub use view::View;
