ghost use Rattle.std.specs.Prelude.{◌≡◌, Bool, true};
ghost use Rattle.geometry.specs.declared.geometry.Geometry.{Geometry};
ghost use Rattle.table_model.specs.Table.{State};
ghost use Rattle.table_model.specs.Room.{has_room};
ghost use Rattle.table_model.specs.Ask.{Ask};
ghost use Rattle.table_model.specs.Flat.{answer};

/// A table that has room has it after each call.
pub fn room_stays()
    ensures { (g : Geometry) (spare : Bool) (s : State) (ask : Ask) → has_room g s.table ≡ true → has_room g (answer g spare s ask).next.table ≡ true }
{}
