ghost use Rattle.std.specs.Prelude.{ℕ, List};
ghost use Rattle.geometry.specs.declared.geometry.Geometry.{Geometry};
ghost use Rattle.volume_rank.specs.declared.found.Found.{Found};
ghost use Rattle.listed_laws.specs.Listed.{OnePlaceOneLength, IsListed, IsListedWhole};

/// Two candidates at one place of a file have the same number of blocks.
pub fn one_place_has_one_length()
    ensures { (file : List ℕ) (place : ℕ) (g : Geometry) (h : Geometry) → OnePlaceOneLength file place g h }
{}

/// A tidy volume with which a file begins stands in the list of all candidates of the file. If the volume tells its META, some candidate
/// of the list has its numbers, at least its files, no damaged id, and its META.
pub fn found_volumes_are_listed()
    ensures listed { (file : List ℕ) (g : Geometry) (list : List Found) → IsListed file g list }
    ensures told { (file : List ℕ) (g : Geometry) (list : List Found) → IsListedWhole file g list }
{}
