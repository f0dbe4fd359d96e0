//! Laws of what is found.
ghost use Rattle.std.specs.Prelude.{ℕ, List};
ghost use Rattle.geometry.specs.declared.geometry.Geometry.{Geometry as AnyGeometry};
ghost use Rattle.image_model.specs.Tidy.{IsTidy};
ghost use Rattle.volume_detect.specs.Places.{IsFoundFirst};
ghost use Rattle.volume_rank.specs.declared.found.Found.{Found as AnyFound};
ghost use Rattle.meta_laws.specs.Other.{TellsMeta};
ghost use Rattle.detect_tool.specs.Fronts.{BeginsWith, IsFoundFor, TellsFiles, TellsOwnMeta};

/// A law: a tidy volume that a chip begins with, as `make` leaves one, is among the candidates at byte 0. What is found there with its
/// numbers tells as many whole files as it has, or more, no damaged id, no block without its magic and no doubled id. Where one of its
/// files has bytes, and meta bytes as a new file has them, and no header page names a page behind the last one of its file, the number
/// of meta bytes that is told is its own.
pub fn tidy_volumes_are_found()
    ensures place { (file : List ℕ) (g : AnyGeometry) → IsTidy g file → BeginsWith file g → IsFoundFirst file g }
    ensures files { (file : List ℕ) (g : AnyGeometry) (f : AnyFound) → IsTidy g file → IsFoundFor file g f → TellsFiles file g f }
    ensures meta { (file : List ℕ) (g : AnyGeometry) (f : AnyFound) → TellsMeta g file → IsFoundFor file g f → TellsOwnMeta g f }
{}
