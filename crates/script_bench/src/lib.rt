//! Commands on devices in memory: images made by hand or damaged at random, what the plain programs tell of an image, runs compared with the flat table,
//! and runs whose power is cut or in which the device fails. It serves tests.
#![tactic(auto)]

mod agreement;
mod bench;
mod copying;
mod cutting;
mod damage;
mod drawn;
mod drawn_calls;
mod flat_lines;
mod folders;
mod hostile;
mod images;
mod rows;
mod steps;
mod tables;
mod trouble;
mod wanted;

pub use agreement::{Agreement, agreement_of, is_in_order};
pub use bench::{Bench, Fault, Lends, Told};
pub use copying::{CopyFault, Copying, cut_copies, fail_copies, fail_sources};
pub use cutting::{
    Swept, count_calls, cut_all_recoveries, cut_each, cut_numbered, cut_once, cut_recoveries,
    fail_each,
};
pub use drawn::{draw_beside, draw_files};
pub use drawn_calls::draw_calls;
pub use hostile::{Met, Odd, Tried, try_damaged};
pub use images::{Ends, Place, empty, letters, put, put_header, put_page, put_whole};
pub use rows::{Maker, RowFile, clear_counts, put_row};
pub use steps::{Kept, Steps};
pub use tables::{are_same, listed, spare_blocks, table};
pub use trouble::Trouble;
