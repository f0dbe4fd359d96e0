ghost use Rattle.geometry.specs.declared.geometry.Geometry.{Geometry};
ghost use Rattle.header_laws.specs.Heads.{HeadTells, FilesHaveHeads, OneHead, FoundById, EachById, EachByName};
ghost use Rattle.header_laws.specs.Names.{FineNames, NewNameUnused, OwnNameUnused};

/// The header page of an id tells its file, and is the only one of its id.
pub fn files_are_told()
    ensures tells { (g : Geometry) → HeadTells g }
    ensures all { (g : Geometry) → FilesHaveHeads g }
    ensures one { (g : Geometry) → OneHead g }
{}

/// A file of the table is the file of its id, however it is found.
pub fn files_go_by_id()
    ensures found { (g : Geometry) → FoundById g }
    ensures each { (g : Geometry) → EachById g }
{}

/// A file of the table is the file of its name, in every image.
pub fn files_go_by_name()
    ensures { (g : Geometry) → EachByName g }
{}

/// Which names aren't refused, and which no other file has.
pub fn names_are_fine()
    ensures fine { FineNames }
    ensures new { NewNameUnused }
    ensures own { (g : Geometry) → OwnNameUnused g }
{}
