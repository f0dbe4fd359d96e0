// A block is moved, worth cleaning or not, and two free blocks come back.
ghost use Rattle.std.specs.Prelude.{◌≡◌, ◌<◌, ◌≤◌};
ghost use Rattle.flash_view.specs.Steps.{Stepped, stopped};
ghost use Rattle.block_gc.specs.Moved.{moving_block};

use crate::cleaning::clean;
use crate::room::free_up;
use flash_view::{StepErr, View};
use nor_core::{Nor, NorState};

/// Cleans a block in use that fits, and then as many as it takes until two are free: whether they are. A cut leaves the table as it is, and if the block may be
/// cut an uncut check gives two free blocks back; done they are free.
pub fn move_block<N: Nor>(v: &mut View<'_, N>, block: u16) -> Result<bool, StepErr>
    requires { block < v.old.geometry.blocks }
    ensures { Stepped stopped v.old v.new result (moving_block block (N.device_writes v.old.nor.now) (N.device_writes v.new.nor.now)) }
{
    clean(v, block)?;
    free_up(v, 2)
}
