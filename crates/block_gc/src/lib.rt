//! Garbage collection: which block is cleaned next, how it is cleaned, and when collection stops.
#![tactic(auto)]

mod batch;
mod choice;
mod cleaning;
mod emptying;
mod laws;
mod moving;
mod next;
mod parting;
mod room;
mod scores;
mod spares;
mod swapping;
mod totals;

pub use cleaning::clean;
pub use laws::scores_are_told;
pub use next::{choose, is_ready, is_stuck};
pub use parting::part_mixed;
pub use room::{RoomErr, compact, free_up, gc_step, make_room};
pub use scores::score;
pub use spares::may_move;
pub use swapping::move_block;
