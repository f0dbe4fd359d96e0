ghost use Rattle.std.specs.Prelude.{◌≡◌, ◌+◌, ◌*◌, ◌<◌, ◌≤◌, length, [], ◌∷◌, OnErr, OnOk, true};
ghost use Rattle.std.specs.Int.{to_le_bytes, w16};
ghost use Rattle.geometry.specs.Numbers.{page_count};
ghost use Rattle.nor_core.specs.Count.{Rose};
ghost use Rattle.nor_core.specs.Flash.{HalfProgrammed, programmed};
ghost use Rattle.nor_core.specs.Device.{Changes};
ghost use Rattle.image_model.specs.Files.{slot_at};
ghost use Rattle.flash_view.specs.Same.{IsSameView};
ghost use Rattle.page_put.specs.Recount.{IsUsedPage, StandsAgain};

use crate::rows::{is_counted, recount, sort_before};
use flash_view::View;
use nor_core::{Failed, Nor, NorState};
use page_layout::{Flags, entry_place};

/// Marks a header page: its file is being removed. One program, which clears IXDELE alone, so that a live header page
/// is live no more; that bit is to be set before.
#[tactic(auto, using(flash_view::proofs::Looking::same_then))]
pub fn mark_removed<N: Nor>(v: &mut View<'_, N>, page: u16) -> Result<(), Failed>
    requires page { page < page_count v.old.geometry }
    ensures cause { OnErr result (Rose (N.faults v.old.nor.now) (N.faults v.new.nor.now)) }
    ensures same { IsSameView v.old v.new }
    ensures wrote { v.new.wrote ≡ true }
    ensures changes { Changes N.NorState v.old.nor.now v.new.nor.now (HalfProgrammed (page * v.old.geometry.page + 4) (0xBF ∷ [])) }
    ensures done { N.tells v.old.nor.now →
        OnOk result (N.bytes v.new.nor.now ≡ programmed (N.bytes v.old.nor.now) (page * v.old.geometry.page + 4) (0xBF ∷ [])) }
    ensures counted { IsUsedPage v.old.geometry (N.bytes v.old.nor.now) page → StandsAgain v.old v.new result }
    ensures few { N.device_writes v.new.nor.now ≤ N.device_writes v.old.nor.now + 1 }
{
    let before = sort_before(v, page);
    let erased = Flags::from_bits(0xFF);
    v.program_in(page, 4, &[erased.removing().bits()])?;
    recount(v, page, before?)
}

/// Programs bytes behind those that a data page holds, in one program. `at` counts bytes from the page's first one, its
/// header of 5 bytes included, and is behind that. The bytes from there on are to be erased, and past the size of the file.
#[tactic(auto, using(flash_view::proofs::Looking::same_then))]
pub fn fill_tail<N: Nor>(v: &mut View<'_, N>, page: u16, at: u32, from: &[u8]) -> Result<(), Failed>
    requires page { page < page_count v.old.geometry }
    requires some { 0 < length from.now }
    requires behind { 5 ≤ at }
    requires inside { at + length from.now ≤ v.old.geometry.page }
    ensures cause { OnErr result (Rose (N.faults v.old.nor.now) (N.faults v.new.nor.now)) }
    ensures same { IsSameView v.old v.new }
    ensures wrote { v.new.wrote ≡ true }
    ensures changes { Changes N.NorState v.old.nor.now v.new.nor.now (HalfProgrammed (page * v.old.geometry.page + at) from.now) }
    ensures done { N.tells v.old.nor.now → OnOk result (N.bytes v.new.nor.now ≡ programmed (N.bytes v.old.nor.now) (page * v.old.geometry.page + at) from.now) }
    ensures counted { IsUsedPage v.old.geometry (N.bytes v.old.nor.now) page → StandsAgain v.old v.new result }
    ensures few { N.device_writes v.new.nor.now ≤ N.device_writes v.old.nor.now + 1 }
{
    let stands = is_counted(v, page);
    v.program_in(page, at, from)?;
    v.counted = stands?;
    Ok(())
}

/// Names the data page of a span in the index page that has its entry, in one program of two bytes. The data span is
/// counted through the whole file from 0, and `target` is the number of the data page. The entry is to be 0xFFFF before,
/// and at or past the page count of the file.
#[tactic(auto, using(flash_view::proofs::Looking::same_then))]
pub fn name_slot<N: Nor>(
    v: &mut View<'_, N>,
    page: u16,
    span: u16,
    target: u16,
) -> Result<(), Failed>
    requires page { page < page_count v.old.geometry }
    ensures cause { OnErr result (Rose (N.faults v.old.nor.now) (N.faults v.new.nor.now)) }
    ensures same { IsSameView v.old v.new }
    ensures wrote { v.new.wrote ≡ true }
    ensures changes { Changes N.NorState v.old.nor.now v.new.nor.now
        (HalfProgrammed (page * v.old.geometry.page + slot_at v.old.geometry span) (to_le_bytes w16 target)) }
    ensures done { N.tells v.old.nor.now → OnOk result
        (N.bytes v.new.nor.now ≡ programmed (N.bytes v.old.nor.now) (page * v.old.geometry.page + slot_at v.old.geometry span) (to_le_bytes w16 target)) }
    ensures counted { IsUsedPage v.old.geometry (N.bytes v.old.nor.now) page → StandsAgain v.old v.new result }
    ensures few { N.device_writes v.new.nor.now ≤ N.device_writes v.old.nor.now + 1 }
{
    let before = sort_before(v, page);
    let start = entry_place(&v.geometry, u32::from(span));
    v.program_in(page, start, &target.to_le_bytes())?;
    recount(v, page, before?)
}
