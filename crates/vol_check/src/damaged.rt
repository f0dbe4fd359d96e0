ghost use Rattle.std.specs.Prelude.{◌≡◌, ◌<◌, ◌≤◌, length, Some, IfOk};
ghost use Rattle.geometry.specs.Numbers.{page_count, check_need};
ghost use Rattle.image_model.specs.Live.{live_at, own};
ghost use Rattle.image_model.specs.Files.{index_page};
ghost use Rattle.image_model.specs.Sound.{HasMagics};
ghost use Rattle.file_find.specs.Marks.{IsMarked};
ghost use Rattle.vol_check.specs.Culls.{HasNoDoubles};
ghost use Rattle.vol_check.specs.Works.{Worked, culling_head, culling_damaged};

use crate::culling::cull;
use file_find::{damage, next_marked, survey};
use flash_view::{View, is_entry_page};
use nor_core::{Failed, Nor, NorState};

// Kills the header page of an id, if the id is damaged: whether it was killed. The marks are right before and after.
fn cull_head<N: Nor>(
    v: &mut View<'_, N>,
    marks: &mut [u8],
    id: u16,
    header: u16,
) -> Result<bool, Failed>
    requires room { check_need v.old.geometry ≤ length marks.old }
    requires header { header < page_count v.old.geometry }
    requires marked { N.tells v.old.nor.now → IsMarked v.old.geometry (N.bytes v.old.nor.now) marks.old }
    requires first { N.tells v.old.nor.now → index_page v.old.geometry (own (live_at v.old.geometry (N.bytes v.old.nor.now)) id) 0 ≡ Some header }
    ensures { Worked v.old v.new result (culling_head id header marks.old marks.new) }
{
    let g = v.geometry;
    if !is_entry_page(&g, header) {
        return Ok(false);
    }
    if damage(v, marks, id, header)?.is_none() {
        return Ok(false);
    }
    cull(v, header)?;
    marks[usize::from(header)] = 0;
    Ok(true)
}

/// Kills the header page of each damaged file, in order of ids: how many there were. No page may be doubled. The marks
/// are bytes for notes, at least `Geometry::check_need`.
pub(crate) fn cull_damaged<N: Nor>(v: &mut View<'_, N>, marks: &mut [u8]) -> Result<u32, Failed>
    requires room { check_need v.old.geometry ≤ length marks.old }
    requires magics { N.tells v.old.nor.now → HasMagics v.old.geometry (N.bytes v.old.nor.now) }
    requires single { N.tells v.old.nor.now → HasNoDoubles v.old.geometry (N.bytes v.old.nor.now) }
    ensures most { IfOk result (λ killed. killed ≤ 65535) }
    ensures work { Worked v.old v.new result culling_damaged }
{
    survey(v, marks)?;
    let mut killed = 0;
    let mut at = 0;
    'ids: while let Some((id, header)) = next_marked(v, marks, at)? {
        killed += u32::from(cull_head(v, marks, id, header)?);
        at = id;
    }
    Ok(killed)
}
