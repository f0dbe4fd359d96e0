ghost use Rattle.geometry.specs.declared.geometry.Geometry.{Geometry};
ghost use Rattle.room_laws.specs.Batching.{CarryingStarts, CarryingIsCounted, CarryingPlaces, CarryingPuts, CarryingIsCut, RenewingLeaves, RenewedIsBatch};
ghost use Rattle.room_laws.specs.Batching.{KilledIsBatch};

/// Copies of a batch's data pages are put one after the other, and what remains has places.
pub fn batches_are_carried()
    ensures starts { (g : Geometry) → CarryingStarts g }
    ensures counted { (g : Geometry) → CarryingIsCounted g }
    ensures places { (g : Geometry) → CarryingPlaces g }
    ensures puts { (g : Geometry) → CarryingPuts g }
{}

/// What a cut leaves while a copy is put, or the batch's index page.
pub fn batches_are_cut()
    ensures pages { (g : Geometry) → CarryingIsCut g }
    ensures index { (g : Geometry) → RenewingLeaves g }
{}

/// Once the index page is put the moves are a batch, and stay one while old pages are killed.
pub fn batches_are_named()
    ensures renewed { (g : Geometry) → RenewedIsBatch g }
    ensures killed { (g : Geometry) → KilledIsBatch g }
{}
