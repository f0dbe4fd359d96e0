// Lent memory made zero.
ghost use Rattle.std.specs.Prelude.{◌≡◌, ℕ, length, slice_index};

/// Makes all bytes zero.
pub(crate) fn clear_bytes(bytes: &mut [u8])
    ensures len { length bytes.new ≡ length bytes.old }
    ensures zero { (k : ℕ) → slice_index bytes.new k ≡ 0 }
{
    bytes.fill(0);
}

/// Makes all counts zero.
pub(crate) fn clear_counts(counts: &mut [u32])
    ensures len { length counts.new ≡ length counts.old }
    ensures zero { (k : ℕ) → slice_index counts.new k ≡ 0 }
{
    counts.fill(0);
}
