// A header page that says another name or other meta bytes.
ghost use Rattle.std.specs.Prelude.{◌+◌, ◌≤◌};
ghost use Rattle.flash_view.specs.Steps.{Stepped, stopped};
ghost use Rattle.table_model.specs.Table.{File};
ghost use Rattle.page_renew.specs.Edits.{IsEditable};
ghost use Rattle.page_renew.specs.Restated.{restating};

use crate::edits::Edit;
use crate::renewing::renew_header;
use flash_view::{StepErr, View};
use nor_core::{Nor, NorState};

/// Gives a file of a tidy image another name or other meta bytes, in one page step: at a cut the file is the one before or the
/// one after, and a reserve that was there is there. The image is to have an index page to be had, and no other file of the
/// new name; where that holds, a fault of the device is the one error. It takes six programs at most.
pub fn restate<N: Nor>(v: &mut View<'_, N>, id: u16, edit: Edit<'_>) -> Result<(), StepErr>
    requires edit { IsEditable v.old.geometry edit }
    ensures step { (f : File) → Stepped stopped v.old v.new result (restating id edit.entry f) }
    ensures few { N.device_writes v.new.nor.now ≤ N.device_writes v.old.nor.now + 6 }
{
    renew_header(v, id, edit)
}
