ghost use Rattle.geometry.specs.declared.geometry.Geometry.{Geometry};
ghost use Rattle.meta_laws.specs.Other.{OtherReadsFewer};

/// An image of bytes that is tidy, names no page behind the last one of a file, and has a file with bytes whose meta bytes are all 0xFF reads
/// fewer files by each other number of meta bytes than by its own.
pub fn one_meta_reads()
    ensures { (g : Geometry) → OtherReadsFewer g }
{}
