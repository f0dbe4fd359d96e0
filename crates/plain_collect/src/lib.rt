//! Which block garbage collection cleans, computed slowly by the definitions.
#![tactic(auto)]

mod ages;
mod choice;
mod places;
mod shared;
mod stuck;
mod swept;
mod wear;

pub use ages::{next_count, score};
pub use choice::{chosen_block, is_fitting, is_worth};
pub use places::{BlockKind, free_of, free_outside};
pub use shared::{SharedBlocks, parting};
pub use stuck::{are_had, is_stuck};
pub use swept::{deleted_outside, is_swept};
pub use wear::scrub_victim;
