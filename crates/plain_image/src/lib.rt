//! Slow programs that compute what a flash image means, each by its definition. They take an allocator, and serve a judge of
//! traces, tools, and comparisons with faster code.
#![tactic(auto)]

mod blocks;
mod counts;
mod damaged;
mod files;
mod headers;
mod marks;
mod meaning;
mod pages;
mod record;
mod room;
mod sound;
mod table;
mod tidiness;
mod tidy;
mod wholes;

pub use blocks::{
    first_entry, free_blocks, is_data_block, is_data_page, is_free_block, is_index_block,
    is_index_page, is_mixed, mixed_blocks, spoiled_blocks,
};
pub use counts::{EntryKind, count_entries};
pub use damaged::damaged_of;
pub use files::{data_page, index_page, name_of, size_of};
pub use meaning::{Meaning, meaning_of};
pub use pages::{entry_of, erase_count, has_magic, holds_volume, is_live, live_at, own, page_of};
pub use record::Record;
pub use room::{Room, room_of};
pub use sound::{is_same_live, is_sound};
pub use table::table_of;
pub use tidiness::is_tidy;
pub use tidy::{is_wanted, killed_of, wanted_pages};
