// The score of a block by its counts.
ghost use Rattle.std.specs.Prelude.{◌≡◌};
ghost use Rattle.block_gc.specs.Totals.{score_by};

use flash_view::BlockCounts;

/// The score of a block by its counts and the next erase count: five for each deleted entry, 50 for each count of age, less
/// one for each live page.
pub fn score(c: &BlockCounts, next: u16) -> i64
    ensures { result ≡ score_by c.now next }
{
    let age = (u32::from(next) + 0x8000).saturating_sub(u32::from(c.erases)) % 0x8000;
    let gain = 5 * u32::from(c.deleted) + 50 * age;
    let live = u32::from(c.index_live) + u32::from(c.data_live);
    i64::from(gain) - i64::from(live)
}
