ghost use Rattle.std.specs.Prelude.{◌≡◌};
ghost use Rattle.image_tool.specs.declared.error.ToolErr.{ToolErr};

use nor_core::Failed;
use table_model::Differ;

/// Why a tool stops before its work is done.
#[derive(Clone, Copy, Debug, PartialEq, Eq)]
pub enum ToolErr {
    /// The board failed.
    BoardFault,
}

impl From<Failed> for ToolErr {
    ghost from_gives = { λ _ why. why ≡ ToolErr.BoardFault };

    fn from(_: Failed) -> ToolErr {
        ToolErr::BoardFault
    }
}

/// Why the files of a volume are not all put into a folder.
#[derive(Clone, Copy, Debug, PartialEq, Eq)]
pub enum ExtractErr {
    /// The board failed.
    BoardFault,
    /// The folder failed.
    FolderFault,
    /// A page doesn't read as what was written there. Only a board whose bytes change by themselves tells this.
    Damaged(Differ),
}
