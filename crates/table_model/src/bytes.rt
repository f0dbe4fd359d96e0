ghost use Rattle.std.specs.Prelude.{◌≡◌, ◌≤◌, length};

use arrayvec::ArrayVec;
use std::marker::Model;

/// Up to `N` bytes, kept in place.
#[derive(Debug, Drop)]
pub struct ShortBytes<const N: usize> {
    bytes: ArrayVec<u8, N>,
}

/// A file's name: up to 31 bytes.
pub type Name = ShortBytes<31>;

/// The meta bytes of a file: up to 64.
pub type Meta = ShortBytes<64>;

impl<const N: usize> Model for ShortBytes<N> {
    ghost use Rattle.std.specs.Prelude.{ℕ, List};

    ghost Value = { List ℕ };

    ghost view = { λ s. s.bytes.items };
}

impl<const N: usize> ShortBytes<N> {
    /// These bytes.
    pub fn from_slice(bytes: &[u8]) -> Self
        requires { length bytes.now ≤ N }
        ensures { result ≡ bytes.now }
    {
        let mut kept = ArrayVec::new();
        let _ = kept.try_extend_from_slice(bytes);
        ShortBytes { bytes: kept }
    }

    /// The bytes.
    pub fn as_slice(&self) -> &[u8]
        ensures bytes { result.now ≡ self.now }
        ensures fits { length result.now ≤ N }
    {
        self.bytes.as_slice()
    }
}
