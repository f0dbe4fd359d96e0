//! The fields, flags and entries of SPIFFS pages, read from and written to slices of their bytes.
//!
//! All numbers on flash are little endian. A program of NOR flash only clears bits, so a flag counts as
//! set on flash, as "used" or "deleted", when its bit is cleared.
#![tactic(auto)]

mod counts;
mod flags;
mod fresh;
mod head;
mod header;
mod ids;
mod index;
mod lookup;
mod words;

pub use counts::{data_pages, further_pages, index_pages};
pub use flags::Flags;
pub use fresh::build_header_page;
pub use head::{
    FILE_TYPE, UNDEFINED_SIZE, file_size, meta_of, name_of, put_meta, put_name, put_size, put_type,
    size_of, type_of,
};
pub use header::{BODY_AT, PageHeader, header_of, put_header};
pub use ids::{is_noted, note_id};
pub use index::{
    FURTHER_SLOTS_AT, entry_place, head_slots_at, index_span, put_entry, put_slot, slot_of,
    slot_offset, slots_end, wide_index_span,
};
pub use lookup::{
    DELETED, FREE, INDEX_BIT, count_offset, entry_offset, magic_offset, read_count, slot_between,
};
pub use words::{fields_stay, put_word, read_word};
