ghost use Rattle.geometry.specs.declared.geometry.Geometry.{Geometry};
ghost use Rattle.room_laws.specs.Stopping.{ReserveCanClean, ReserveFitsEach, LastFreeIsPlain, StoppedHasReserve, StoppedHasNoWorth, NeverStuck};
ghost use Rattle.room_laws.specs.Stopping.{StoppedHasPages, HadNeedsRoom, NoWorthIsPacked, UnstuckHasNoWorth, UnstuckHasPages};

/// An image with its reserve can be cleaned, whichever block is chosen.
pub fn reserve_is_enough()
    ensures can { (g : Geometry) → ReserveCanClean g }
    ensures fits { (g : Geometry) → ReserveFitsEach g }
{}

/// With one free block the chosen block has no live data page, and there always is one to choose.
pub fn last_free_is_enough()
    ensures plain { (g : Geometry) → LastFreeIsPlain g }
    ensures stuck { (g : Geometry) → NeverStuck g }
{}

/// Where no block is chosen any more two are free, none is worth cleaning, and all pages are had for which there is room.
pub fn stopped_is_enough()
    ensures reserve { (g : Geometry) → StoppedHasReserve g }
    ensures worth { (g : Geometry) → StoppedHasNoWorth g }
    ensures had { (g : Geometry) → StoppedHasPages g }
    ensures room { (g : Geometry) → HadNeedsRoom g }
{}

/// Whatever is free, cleaning leads to a packed image that has all pages for which there is room, or is stuck.
pub fn unstuck_is_enough()
    ensures worth { (g : Geometry) → UnstuckHasNoWorth g }
    ensures packed { (g : Geometry) → NoWorthIsPacked g }
    ensures had { (g : Geometry) → UnstuckHasPages g }
{}
