//! A device, a chip of a row and a script in memory, for tests and rehearsals. What a cut may leave of a device is exactly what
//! the rules of NOR flash allow; calls fail, and the power goes off, where that was asked for.
#![tactic(auto)]

mod call;
mod chip_note;
mod cut;
mod mem_chip;
mod mem_source;
mod memory;
mod note;
mod noted;
mod plan;

pub use cut::cleared_bytes;
pub use mem_chip::MemChip;
pub use mem_source::MemSource;
pub use memory::MemBoard;
pub use plan::CallKind;
