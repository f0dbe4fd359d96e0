//! Candidates in order, best first.
ghost use Rattle.std.specs.Prelude.{◌≡◌, true, false};
ghost use Rattle.volume_rank.specs.Order.{lost_blocks as the_lost, is_sounder as the_sounder, is_firmer as the_firmer};
ghost use Rattle.volume_rank.specs.Order.{is_before as the_before, is_behind as the_behind, FirstBehind, Better};

use crate::found::Found;

// How many blocks lack their magic, but for one, which may also lack it in a volume that mounts.
fn lost_blocks(f: &Found) -> u32
    ensures { result ≡ the_lost f.now }
{
    f.spoiled.saturating_sub(1)
}

// Whether fewer ids are damaged, or as many and the place is lower.
fn is_sounder(f: &Found, g: &Found) -> bool
    ensures { result ≡ the_sounder f.now g.now }
{
    f.counts.damaged < g.counts.damaged
        || (f.counts.damaged == g.counts.damaged && f.place < g.place)
}

// Whether fewer blocks are lost, or as many and the volume is sounder.
fn is_firmer(f: &Found, g: &Found) -> bool
    ensures { result ≡ the_firmer f.now g.now }
{
    lost_blocks(f) < lost_blocks(g) || (lost_blocks(f) == lost_blocks(g) && is_sounder(f, g))
}

// Whether one comes before another.
fn is_before(f: &Found, g: &Found) -> bool
    ensures { result ≡ the_before f.now g.now }
{
    g.counts.whole < f.counts.whole || (g.counts.whole == f.counts.whole && is_firmer(f, g))
}

// Whether it comes behind that one, if there is one.
fn is_behind(after: &Option<Found>, f: &Found) -> bool
    ensures { result ≡ the_behind after.now f.now }
{
    match after {
        Some(after) => is_before(after, f),
        None => true,
    }
}

// The better of the best so far and one more.
fn better(best: Option<Found>, f: Found) -> Option<Found>
    ensures { Better best f result }
{
    match best {
        None => Some(f),
        Some(best) => {
            if is_before(&f, &best) {
                Some(f)
            } else {
                Some(best)
            }
        }
    }
}

// The better of the best so far and one more, if that comes behind.
fn better_behind(after: &Option<Found>, best: Option<Found>, f: Found) -> Option<Found>
    ensures behind { the_behind after.now f ≡ true → Better best f result }
    ensures stays { the_behind after.now f ≡ false → result ≡ best }
{
    if is_behind(after, &f) {
        better(best, f)
    } else {
        best
    }
}

/// The first candidate of the list that comes behind one, or the first of all; none where there is no further one. Before others
/// come those with more whole files, then those of which fewer blocks lack their magic (one may, as in a volume that mounts), then those
/// with fewer damaged ids, then those of lower places.
pub fn next_best(found: &[Found], after: Option<Found>) -> Option<Found>
    ensures { FirstBehind found.now after result }
{
    let mut best = None;
    for i in 0..found.len() {
        best = better_behind(&after, best, found[i]);
    }
    best
}
