//! The generator of drawn numbers.
ghost use Rattle.std.specs.Prelude.{◌≡◌, ◌/◌, ◌^◌};
ghost use Rattle.nor_core.specs.Draws.{next_number};

/// One draw of the generator: sets `x` to its next number, and answers the upper 31 bits of that.
pub fn draw(x: &mut u64) -> u64
    ensures number { x.new ≡ next_number x.old }
    ensures drawn { result ≡ x.new / 2 ^ 33 }
{
    *x = x
        .wrapping_mul(6364136223846793005)
        .wrapping_add(1442695040888963407);
    *x / 8589934592
}
