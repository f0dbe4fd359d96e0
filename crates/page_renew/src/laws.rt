// What an edit of a header page leads to.
ghost use Rattle.geometry.specs.declared.geometry.Geometry.{Geometry};
ghost use Rattle.page_renew.specs.EditLaws.{EditSays, EditTidies, CutLeaves, GrowSays, GrowTidies, GrowsInOne, GrowsInMany, EditKeepsEntries, EditNamesNext};

/// An edit of a header page may be asked for where the file is whole: the edited header page leads to the file with the
/// edit done. One that keeps the size leaves a tidy image tidy, one that cuts the file leaves it tidy but for the pages
/// past the new counts, and one that adds bytes leaves it tidy where the pages put beside serve it.
pub fn edits_lead()
    ensures says { (g : Geometry) → EditSays g }
    ensures tidies { (g : Geometry) → EditTidies g }
    ensures cuts { (g : Geometry) → CutLeaves g }
    ensures grows { (g : Geometry) → GrowSays g }
    ensures one { (g : Geometry) → GrowsInOne g }
    ensures many { (g : Geometry) → GrowsInMany g }
    ensures grown { (g : Geometry) → GrowTidies g }
    ensures keeps { (g : Geometry) → EditKeepsEntries g }
    ensures names { (g : Geometry) → EditNamesNext g }
{}
