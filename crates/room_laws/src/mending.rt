ghost use Rattle.geometry.specs.declared.geometry.Geometry.{Geometry};
ghost use Rattle.room_laws.specs.Cut.{CutMends};
ghost use Rattle.room_laws.specs.Mending.{MendingGoesOn, CleaningKeepsMending};
ghost use Rattle.room_laws.specs.Mends.{CleanMends, MendedHasReserve};
ghost use Rattle.room_laws.specs.Order.{ToFront, MendingRearranged, CleanedMends, StoppedIsMended};

/// A cut in a cleaning leaves a volume that cleanings mend.
pub fn cuts_are_mended()
    ensures { CutMends }
{}

/// Cleanings go on until two blocks are free again.
pub fn cleanings_mend()
    ensures goes_on { MendingGoesOn }
    ensures kept { CleaningKeepsMending }
    ensures stopped { StoppedIsMended }
{}

/// The order of the blocks doesn't matter to that.
pub fn order_is_free()
    ensures front { ToFront }
    ensures mending { MendingRearranged }
    ensures cleaned { CleanedMends }
{}

/// An image that can be cleaned mends, and cleanings give it two free blocks.
pub fn images_mend()
    ensures clean { (g : Geometry) → CleanMends g }
    ensures stopped { (g : Geometry) → MendedHasReserve g }
{}
