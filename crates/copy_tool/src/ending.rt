ghost use Rattle.std.specs.Prelude.{◌≡◌, ◌≢◌};
ghost use Rattle.copy_tool.specs.Endings.{copy_ends, copied_text};
ghost use Rattle.tool_parts.specs.Closing.{status_of};
ghost use Rattle.tool_parts.specs.Later.{IsLaterStatus};
ghost use Rattle.tool_parts.specs.Refusals.{said_ending};

use copy_model::{Copied, CopyErr};
use tool_parts::{Closing, Ending, put, put_count};

/// How a command ends whose copy isn't done.
pub(crate) fn copy_ending(why: CopyErr) -> Ending
    ensures ends { result ≡ copy_ends why }
    ensures later { IsLaterStatus (status_of result) }
    ensures board { result ≡ Ending.BoardFault → why ≡ CopyErr.ToFault }
    ensures source { result ≡ Ending.SourceChipFault → why ≡ CopyErr.FromFault }
{
    match why {
        CopyErr::BadName { at } => Ending::BadName(at),
        CopyErr::Full { index, data_pages } => Ending::Full { index, data_pages },
        CopyErr::FromFault => Ending::SourceChipFault,
        CopyErr::ToFault => Ending::BoardFault,
        CopyErr::Damaged(differ) => Ending::Differ(differ),
        CopyErr::Refused => Ending::Tight(0),
    }
}

/// How a copy ends that was done, of a source with so many damaged ids.
pub(crate) fn end_of_copy(damaged: u32) -> Ending
    ensures ends { result ≡ said_ending damaged }
    ensures later { IsLaterStatus (status_of result) }
    ensures board { result ≢ Ending.BoardFault }
    ensures source { result ≢ Ending.SourceChipFault }
{
    if damaged > 0 {
        Ending::Damaged(damaged)
    } else {
        Ending::Done
    }
}

/// The line of a copy that was done.
pub(crate) fn copied_line(copied: Copied) -> Closing
    ensures { result.items ≡ copied_text copied.copied copied.kept }
{
    let mut line = Closing::new();
    put_count(&mut line, b"copied ", u64::from(copied.copied));
    put_count(&mut line, b" kept ", u64::from(copied.kept));
    put(&mut line, b"\n");
    line
}
