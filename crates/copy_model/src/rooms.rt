ghost use Rattle.geometry.specs.declared.geometry.Geometry.{Geometry};
ghost use Rattle.copy_model.specs.Rooms.{FullHere, FullLater, FullEnds, RoomBehind, RecordFull, StepsKept, StepsFull, FirstCounts, NextCounts};

/// Which table of a record's copy is the first without room: one of those with its bytes up to an end, or none.
pub fn records_have_room()
    ensures here { (g : Geometry) → FullHere g }
    ensures later { (g : Geometry) → FullLater g }
    ensures ends { (g : Geometry) → FullEnds g }
    ensures behind { (g : Geometry) → RoomBehind g }
    ensures record_full { (g : Geometry) → RecordFull g }
{}

/// Which table of a copy of records in order is the first without room.
pub fn copies_have_room()
    ensures kept { (g : Geometry) → StepsKept g }
    ensures full { (g : Geometry) → StepsFull g }
{}

/// How many pages more the working file takes, step by step.
pub fn pages_are_counted()
    ensures first { (g : Geometry) → FirstCounts g }
    ensures next { (g : Geometry) → NextCounts g }
{}
