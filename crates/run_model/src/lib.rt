//! What a script does to a volume: the replies to its calls on the flat table, and what a power cut may leave.
#![tactic(auto)]

ghost use Rattle.geometry.specs.declared.geometry.Geometry.{Geometry};
ghost use Rattle.run_model.specs.Rooms.{RoomyIsPlain};

/// Where the table has room, or no call cuts a file on one without, each call of a run is answered as with two free blocks.
#[tactic(auto, using(crate::proofs::Rooms::roomy_plain))]
pub fn roomy_runs_are_plain()
    ensures { (g : Geometry) → RoomyIsPlain g }
{}
