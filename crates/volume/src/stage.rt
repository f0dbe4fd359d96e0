ghost use Rattle.std.specs.Prelude.{◌≡◌};
ghost use Rattle.table_model.specs.Reply.{Refuses};
ghost use Rattle.volume.specs.Replies.{breaks as the_breaks};
ghost use Rattle.volume.specs.Opening.{stage_after};

use table_model::FsErr;

/// How far a volume has come.
#[derive(Clone, Copy, Debug, PartialEq, Eq)]
pub enum Stage {
    /// It is to be mounted.
    Unmounted,
    /// It was mounted: at most one block lacks its magic. It is to be checked.
    Mounted,
    /// It was checked, and takes calls.
    Checked,
    /// A call failed after it had asked the device for a program or an erase. Mount and check again.
    Failed,
}

// Whether a failure breaks a call: the device failed, or a page reads otherwise.
fn breaks(why: &FsErr) -> bool
    ensures { result ≡ the_breaks (Refuses why.now) }
{
    matches!(why, FsErr::DeviceFault | FsErr::Damaged(_))
}

/// Where a failure leads that a checked volume met. `wrote` says whether a program or an erase was asked for.
pub(crate) fn stage_at(why: &FsErr, wrote: bool) -> Stage
    ensures { result ≡ stage_after wrote (Refuses why.now) }
{
    if wrote && breaks(why) {
        Stage::Failed
    } else {
        Stage::Checked
    }
}
