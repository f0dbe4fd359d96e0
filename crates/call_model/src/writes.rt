ghost use Rattle.geometry.specs.declared.geometry.Geometry.{Geometry};
ghost use Rattle.call_model.specs.Parts.{AmongSteps, StepsAmong, WholeAmong, WrittenOn, WrittenNext, PutTwice, PutIsThere, PutLeavesOthers};

/// The steps of a write are the tables with the bytes up to each end of a part.
pub fn steps_are_parts()
    ensures step { (g : Geometry) → AmongSteps g }
    ensures part { (g : Geometry) → StepsAmong g }
    ensures whole { (g : Geometry) → WholeAmong g }
{}

/// Bytes that are written one part after another are written at once.
pub fn writes_join()
    ensures on { WrittenOn }
    ensures next { WrittenNext }
{}

/// A file that is put into a table is the one of its id, and nothing else changes.
pub fn files_are_put()
    ensures there { PutIsThere }
    ensures others { PutLeavesOthers }
    ensures twice { PutTwice }
{}
