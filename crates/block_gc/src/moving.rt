// Moving one index page out of a block, the step of which the cleaning of an index block consists.
ghost use Rattle.std.specs.Prelude.{◌-◌, ◌+◌, ◌<◌, ◌≤◌};
ghost use Rattle.flash_view.specs.Places.{IsEntryPage};
ghost use Rattle.flash_view.specs.Steps.{Stepped, failed};
ghost use Rattle.block_gc.specs.Moves.{CanMove, moving};
ghost use Rattle.page_renew.specs.Built.{IsBuilt};

use flash_view::{Kind, View};
use nor_core::{Failed, Nor, NorState};
use page_put::{kill, put_page};
use page_renew::build_copy;
use table_model::Tag;

// Puts the copy that was built, and kills the page: six programs.
fn put_copy<N: Nor>(v: &mut View<'_, N>, page: u16, to: u16, tag: Tag) -> Result<(), Failed>
    requires page { IsEntryPage v.old.geometry page }
    requires to { IsEntryPage v.old.geometry to }
    requires id { (1 ≤ tag.id) × (tag.id ≤ 0x7FFE) }
    requires built { N.tells v.old.nor.now → CanMove v.old.geometry (N.bytes v.old.nor.now) page to →
        IsBuilt v.old.geometry (N.bytes v.old.nor.now) page tag v.old.work.now }
    ensures step { Stepped failed v.old v.new result (moving page to) }
    ensures few { N.device_writes v.new.nor.now ≤ N.device_writes v.old.nor.now + 6 }
{
    put_page(v, to, Kind::Index, tag)?;
    kill(v, page)
}

// Moves an index page: a copy of it is put at `to`, and the old page is killed. A cut leaves the table as it is. Where
// the page has no id of a file nothing is moved.
pub(crate) fn move_index<N: Nor>(v: &mut View<'_, N>, page: u16, to: u16) -> Result<(), Failed>
    requires page { IsEntryPage v.old.geometry page }
    requires to { IsEntryPage v.old.geometry to }
    ensures step { Stepped failed v.old v.new result (moving page to) }
    ensures few { N.device_writes v.new.nor.now ≤ N.device_writes v.old.nor.now + 6 }
{
    let tag = build_copy(v, page)?;
    if tag.id == 0 || tag.id > 0x7FFE {
        return Ok(());
    }
    put_copy(v, page, to, tag)
}
