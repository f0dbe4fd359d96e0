//! Which pages, blocks and ids are free.
#![tactic(auto)]

mod blocks;
mod erases;
mod ids;
mod naming;
mod pages;
mod table;

pub use blocks::{counts, free_blocks, is_free_block, sums};
pub use erases::next_count;
pub use ids::free_id;
pub use naming::{Naming, name_or_id};
pub use pages::{data_pages_had, free_page, index_pages_had, pages_stay_had};
pub use table::count_all;
