ghost use Rattle.geometry.specs.declared.geometry.Geometry.{Geometry};
ghost use Rattle.renew_laws.specs.Overwrite.{PatchedIsWritten, NothingWritten};
ghost use Rattle.renew_laws.specs.Relink.{RelinkRecopies, RelinkReads, RelinkEnds};

/// With a patched data page in its place the file is the one written there.
pub fn overwriting_writes()
    ensures patched { (g : Geometry) → PatchedIsWritten g }
    ensures nothing { NothingWritten }
{}

/// A data page is replaced by a copy: the index page that names it is renewed, and then the page is killed.
pub fn relinking_writes()
    ensures recopies { (g : Geometry) → RelinkRecopies g }
    ensures reads { (g : Geometry) → RelinkReads g }
    ensures ends { (g : Geometry) → RelinkEnds g }
{}
