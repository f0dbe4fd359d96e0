//! A law of what commands leave.
ghost use Rattle.std.specs.Prelude.{ℕ, List};
ghost use Rattle.geometry.specs.declared.geometry.Geometry.{Geometry as AnyGeometry};
ghost use Rattle.folder_core.specs.Files.{FolderFile};
ghost use Rattle.tool_core.specs.Telling.{MadeTells};

/// A law: what `make` leaves of a folder in which a file has bytes tells the number of its meta bytes, so `detect` prints that one.
pub fn made_volumes_tell_their_meta()
    ensures { (g : AnyGeometry) (image : List ℕ) (files : List FolderFile) → MadeTells g image files }
{}
