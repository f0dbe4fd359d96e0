//! Why a line of the front goes no further.
use crate::Refusal;
use front_edge::CopyErr;
use nor_core::MemErr;
use std::alloc::AllocError;

/// Why a line of the front goes no further.
#[derive(Drop)]
pub enum Stop {
    /// There is no memory, or no chip.
    Refusal(Refusal),
    /// All is said, and this is the status.
    Status(u8),
}

impl From<Refusal> for Stop {
    fn from(why: Refusal) -> Stop {
        Stop::Refusal(why)
    }
}

impl From<AllocError> for Stop {
    fn from(_: AllocError) -> Stop {
        Stop::Refusal(Refusal::Memory)
    }
}

impl From<MemErr> for Stop {
    fn from(_: MemErr) -> Stop {
        Stop::Refusal(Refusal::Memory)
    }
}

impl From<CopyErr> for Stop {
    fn from(why: CopyErr) -> Stop {
        match why {
            CopyErr::Memory => Stop::Refusal(Refusal::Memory),
            CopyErr::Units | CopyErr::Chip => Stop::Refusal(Refusal::Chips),
        }
    }
}
