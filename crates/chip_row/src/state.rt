//! What a chip is, as contracts see it.
ghost use Rattle.std.specs.Prelude.{ℕ, List};

/// The meanings of a chip: contracts speak of it by these alone.
pub trait ChipState {
    /// Whether the chip tells its bytes.
    ghost tells: { Self → Type 0 };

    /// The bytes, where the chip tells them.
    ghost bytes: { Self → List ℕ };

    /// How many bytes it holds.
    ghost size: { Self → ℕ };

    /// How many bytes an erase unit has.
    ghost unit: { Self → ℕ };

    /// A count of failures that never falls. At the last value of a u64 it stands still, and counts as risen.
    ghost faults: { Self → ℕ };

    /// A count of reads that never falls: a read raises it by at most one. It stands still at the last value of a u64.
    ghost device_reads: { Self → ℕ };

    /// The moment of the last program or erase, failed ones too; 0 before the first.
    ghost last: { Self → ℕ };

    /// What a cut at that moment may leave.
    ghost left_at: { Self → ℕ → List ℕ → Type 0 };
}
