// The ages of blocks: how many erase counts each is behind the next one.
ghost use Rattle.std.specs.Prelude.{◌≡◌, ◌<◌, ◌≤◌, OnErr, IfOk};
ghost use Rattle.nor_core.specs.Count.{Rose};
ghost use Rattle.image_model.specs.Tidy.{IsTidy};
ghost use Rattle.flash_view.specs.Same.{OnlyLooks};
ghost use Rattle.free_search.specs.ByRows.{IsByRows};
ghost use Rattle.wear_scrub.specs.Ages.{age_by, older_of, ages_by, IsBelow, AreAges};

use flash_view::{BlockCounts, View};
use free_search::{counts, next_count};
use nor_core::{Failed, Nor, NorState};

// A block and its age.
#[derive(Clone, Copy)]
pub(crate) struct Aged {
    pub(crate) block: u16,
    pub(crate) age: u16,
}

// What was found so far.
#[derive(Clone, Copy)]
pub(crate) struct Ages {
    // The free blocks.
    pub(crate) free: u32,
    // The greatest age of a free block.
    pub(crate) young: u16,
    // The first of the oldest blocks in use.
    pub(crate) oldest: Option<Aged>,
}

// The age of a block by its erase count and the next one.
pub(crate) fn age_of(erases: u16, next: u16) -> u16
    ensures { result ≡ age_by erases next }
{
    ((u32::from(next) + 0x8000).saturating_sub(u32::from(erases)) % 0x8000) as u16
}

// The older one, the earlier one among equals.
fn older(oldest: Option<Aged>, other: Aged) -> Option<Aged>
    ensures { result ≡ older_of oldest other }
{
    match oldest {
        Some(first) if other.age <= first.age => Some(first),
        _ => Some(other),
    }
}

// What was found so far with a block more, by its counts.
fn with_block(found: &Ages, c: &BlockCounts, entries: u32, next: u16, block: u16) -> Ages
    requires few { found.now.free < 65535 }
    ensures { result ≡ ages_by found.now c.now entries next block }
{
    let age = age_of(c.erases, next);
    if u32::from(c.free) == entries {
        Ages {
            free: found.free + 1,
            young: age.max(found.young),
            oldest: found.oldest,
        }
    } else {
        Ages {
            free: found.free,
            young: found.young,
            oldest: older(found.oldest, Aged { block, age }),
        }
    }
}

// The ages of all blocks: by the table of counts, where it stands.
#[tactic(auto, using(flash_view::proofs::Looking::looks_then))]
pub(crate) fn all_ages<N: Nor>(v: &mut View<'_, N>) -> Result<Ages, Failed>
    ensures cause { OnErr result (Rose (N.faults v.old.nor.now) (N.faults v.new.nor.now)) }
    ensures looks { OnlyLooks v.old v.new }
    ensures quick { IsByRows v.old v.new result }
    ensures below { IfOk result (λ found. IsBelow v.old.geometry.blocks found.oldest) }
    ensures told { N.tells v.old.nor.now → IsTidy v.old.geometry (N.bytes v.old.nor.now) →
        IfOk result (λ found. AreAges v.old.geometry (N.bytes v.old.nor.now) found) }
{
    let entries = v.geometry.entries();
    let next = next_count(v)?;
    let mut found = Ages {
        free: 0,
        young: 0,
        oldest: None,
    };
    for block in 0..v.geometry.blocks() as u16 {
        let c = counts(v, block)?;
        found = with_block(&found, &c, entries, next, block);
    }
    Ok(found)
}
