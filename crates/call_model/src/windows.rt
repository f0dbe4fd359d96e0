ghost use Rattle.std.specs.Prelude.{ℕ, Bool};
ghost use Rattle.geometry.specs.declared.geometry.Geometry.{Geometry};
ghost use Rattle.table_model.specs.Window.{Moment};
ghost use Rattle.call_model.specs.Moves.{LeavesWindow, TellStays, RefusedSettles, OtherSettles, WriteGoesOn, WriteBegins, AfterSettled, AfterRefused};
ghost use Rattle.call_model.specs.Moves.{SettledAmong, FillsAsWrites};

/// What a call does to the bytes that wait.
pub fn calls_move_windows()
    ensures leaves { (g : Geometry) → LeavesWindow g }
    ensures tells { (g : Geometry) → TellStays g }
    ensures refused { (g : Geometry) → RefusedSettles g }
    ensures other { (g : Geometry) → OtherSettles g }
    ensures goes_on { (g : Geometry) → WriteGoesOn g }
    ensures begins { (g : Geometry) → WriteBegins g }
{}

/// A call that doesn't go on with what waits does what it would where all was settled before.
pub fn windows_may_settle_first()
    ensures done { (g : Geometry) → AfterSettled g }
    ensures refused { (g : Geometry) → AfterRefused g }
{}

/// The table of a state is the settled one of its moment, or one that waits.
pub fn tables_are_among()
    ensures { (g : Geometry) → SettledAmong g }
{}

/// A fill is the write of its bytes.
pub fn fills_are_writes()
    ensures { (g : Geometry) (spare : Bool) (m : Moment) (fd count byte : ℕ) → FillsAsWrites g spare m fd count byte }
{}
