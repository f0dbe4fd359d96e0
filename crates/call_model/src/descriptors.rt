ghost use Rattle.std.specs.Prelude.{ℕ, List, Bool};
ghost use Rattle.geometry.specs.declared.geometry.Geometry.{Geometry};
ghost use Rattle.table_model.specs.Table.{State};
ghost use Rattle.table_model.specs.Ask.{Ask};
ghost use Rattle.table_model.specs.Flat.{answer};
ghost use Rattle.table_model.specs.Window.{Moment};
ghost use Rattle.image_model.specs.Tables.{table_of};
ghost use Rattle.call_model.specs.Memory.{Memory, IsAt, OpensFiles};
ghost use Rattle.call_model.specs.Tables.{NamesById};

/// Each open descriptor stays on a file of the table, at a place inside it, whatever the call.
#[tactic(auto, using(crate::proofs::Opens::opens_kept))]
pub fn descriptors_stay_open()
    ensures { (g : Geometry) (spare : Bool) (s : State) (ask : Ask) → NamesById s.table → OpensFiles s → OpensFiles (answer g spare s ask).next }
{}

/// Where the files of an image's table go by their ids, those of a moment do, also while written bytes wait.
pub fn names_stay_by_id()
    ensures { (g : Geometry) (image : List ℕ) (memory : Memory) (m : Moment) → NamesById (table_of g image) → IsAt g image memory m → NamesById m.state.table }
{}
