ghost use Rattle.geometry.specs.declared.geometry.Geometry.{Geometry};
ghost use Rattle.header_laws.specs.Sums.{FileCount, PutAdds, NewAdds};
ghost use Rattle.header_laws.specs.Room.{LeastIsUnused, CreateRoom, LeastIsFirst};

/// Header pages are as many as files.
pub fn files_are_counted()
    ensures { (g : Geometry) → FileCount g }
{}

/// What a file more adds, and the room that it needs.
pub fn files_add_up()
    ensures put { (g : Geometry) → PutAdds g }
    ensures new { (g : Geometry) → NewAdds g }
    ensures room { (g : Geometry) → CreateRoom g }
{}

/// The id of a new file.
pub fn ids_are_least()
    ensures unused { LeastIsUnused }
    ensures first { (g : Geometry) → LeastIsFirst g }
{}
