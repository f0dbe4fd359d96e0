ghost use Rattle.std.specs.Prelude.{◌≢◌, ◌+◌, ◌≤◌, length, All};
ghost use Rattle.flash_view.specs.Places.{IsEntryPage};
ghost use Rattle.flash_view.specs.Steps.{Stepped, failed, stopped};
ghost use Rattle.file_write.specs.Creates.{creating_at, creating};

use flash_view::{Kind, StepErr, View};
use free_search::free_page;
use nor_core::{Failed, Nor, NorState};
use page_layout::build_header_page;
use page_put::put_page;
use table_model::{Differ, Tag};

// That no page was found where one was wanted.
pub(crate) fn missing(id: u16) -> Differ
    ensures { result.wanted ≢ result.found }
{
    Differ::no_page(Tag { id, span: 0 })
}

// Puts the header page of a new file: four programs at most, the last of which makes the file.
fn put_header_page<N: Nor>(
    v: &mut View<'_, N>,
    page: u16,
    id: u16,
    name: &[u8],
) -> Result<(), Failed>
    requires page { IsEntryPage v.old.geometry page }
    requires id { (1 ≤ id) × (id ≤ 0x7FFE) }
    requires name { (1 ≤ length name.now) × (length name.now ≤ 31) }
    requires no_zero { All (λ b. b ≢ 0) name.now }
    ensures step { Stepped failed v.old v.new result (creating_at page id name.now) }
    ensures few { N.device_writes v.new.nor.now ≤ N.device_writes v.old.nor.now + 4 }
{
    let g = v.geometry;
    let len = g.page() as usize;
    let work = &mut *v.work;
    build_header_page(&g, &mut work[..len], id, name);
    put_page(v, page, Kind::Index, Tag { id, span: 0 })
}

/// Makes an empty file of that name under that id, in one page step: at a cut it is there whole or not at
/// all, and no block is made fresh. The image is to be tidy with its reserve, with an index page to be had; the id and the
/// name are to be unused, the name 1 to 31 bytes without a zero. Where that holds, a fault of the device is the one error.
/// It takes four programs at most.
pub fn create_step<N: Nor>(v: &mut View<'_, N>, id: u16, name: &[u8]) -> Result<(), StepErr>
    requires id { (1 ≤ id) × (id ≤ 0x7FFE) }
    requires name { (1 ≤ length name.now) × (length name.now ≤ 31) }
    requires no_zero { All (λ b. b ≢ 0) name.now }
    ensures step { Stepped stopped v.old v.new result (creating id name.now) }
    ensures few { N.device_writes v.new.nor.now ≤ N.device_writes v.old.nor.now + 4 }
{
    let Some(page) = free_page(v, Kind::Index, 2, None)? else {
        return Err(StepErr::Damaged(missing(id)));
    };
    Ok(put_header_page(v, page, id, name)?)
}
