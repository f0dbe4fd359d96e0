// The numbers of meta bytes that read most of a volume.
ghost use Rattle.std.specs.Prelude.{◌≡◌, ℕ, ◌+◌, ◌<◌, ◌≤◌, length, slice_index, nat_lt, if◌then◌else◌};
ghost use Rattle.volume_rank.specs.Tops.{IsBestOf, IsLastOf, IsTop};

use crate::found::MetaRange;
use meta_guess::Counts;

/// How many numbers of meta bytes there are.
pub(crate) const METAS: usize = 65;

// Of two numbers of meta bytes the one by which more files are whole; of equal ones the first.
fn better(whole: &[u32], best: u32, meta: u32) -> u32
    requires best { best < length whole.now }
    requires meta { meta < length whole.now }
    ensures { result ≡ (if nat_lt (slice_index whole.now best) (slice_index whole.now meta) then meta else best) }
{
    if whole[best as usize] < whole[meta as usize] {
        meta
    } else {
        best
    }
}

// The least number by which most files are whole.
fn best_meta(whole: &[u32]) -> u32
    requires { length whole.now ≡ 65 }
    ensures { IsBestOf whole.now 65 result }
{
    let mut best = 0;
    for meta in 1..METAS as u32 {
        best = better(whole, best, meta);
    }
    best
}

// The last of the numbers that follow one and by which as many are whole.
fn last_meta(whole: &[u32], first: u32) -> u32
    requires len { length whole.now ≡ 65 }
    requires first { first ≤ 64 }
    ensures { IsLastOf whole.now first result }
{
    for meta in first + 1..METAS as u32 {
        if whole[meta as usize] != whole[first as usize] {
            return meta - 1;
        }
    }
    METAS as u32 - 1
}

/// The numbers of meta bytes by which most files are whole, and what they read: `whole` tells how many are whole by each, `heads` how
/// many ids have a header page.
pub(crate) fn top_range(whole: &[u32], heads: u32) -> MetaRange
    requires { length whole.now ≡ 65 }
    ensures { IsTop whole.now heads result }
{
    let first = best_meta(whole);
    let most = whole[first as usize];
    MetaRange {
        first,
        last: last_meta(whole, first),
        counts: Counts {
            whole: most,
            damaged: heads.saturating_sub(most),
        },
    }
}
