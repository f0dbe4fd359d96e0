ghost use Rattle.geometry.specs.declared.geometry.Geometry.{Geometry};
ghost use Rattle.room_laws.specs.Parting.{PartFinds, PartPuts, PartKills, NeatPartsAreCounted, PartPlaceIsFound, MovePartsOne};

/// Index pages go out of blocks that hold both kinds: while one is left and all have places, one is found; a put takes one, a kill parts one.
pub fn shared_pages_part()
    ensures finds { PartFinds }
    ensures puts { PartPuts }
    ensures kills { PartKills }
{}

/// The same of neat images: the numbers are those of their counts, a place is found, and a move that is done parts one page.
pub fn neat_images_part()
    ensures counted { (g : Geometry) → NeatPartsAreCounted g }
    ensures found { (g : Geometry) → PartPlaceIsFound g }
    ensures moved { (g : Geometry) → MovePartsOne g }
{}
