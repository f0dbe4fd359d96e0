ghost use Rattle.room_laws.specs.Bounds.{ReserveIsBound, CleaningKeepsBound, ReserveFitsAll, LastFreeFitsOne};
ghost use Rattle.room_laws.specs.Measure.{CleaningFalls, CleaningLowers};
ghost use Rattle.room_laws.specs.Packing.{NoneWorthIsPacked, HadHasRoom, StoppedIsHad};
ghost use Rattle.room_laws.specs.ThreeFree.{ThreeCutMends, ThreeLeaveTwo};
ghost use Rattle.room_laws.specs.TwoFree.{TwoCutMends, TwoLeaveOne, TwoLeaveTwo, SpareIsNeeded};

/// Where no block is worth cleaning nothing is deleted, and each kind has as few blocks as it can.
pub fn none_worth_is_packed()
    ensures { NoneWorthIsPacked }
{}

/// The bound holds with two free blocks, and every cleaning keeps it.
pub fn bound_is_kept()
    ensures reserve { ReserveIsBound }
    ensures kept { CleaningKeepsBound }
{}

/// With two free blocks every block fits, with one and the bound a block for index pages that is worth cleaning.
pub fn blocks_fit()
    ensures all { ReserveFitsAll }
    ensures one { LastFreeFitsOne }
{}

/// Cleanings come to an end.
pub fn cleanings_end()
    ensures falls { CleaningFalls }
    ensures lowers { CleaningLowers }
{}

/// A cleaning of any block that begins with three free blocks leaves two, and cut off a volume that cleanings mend.
pub fn three_free_are_enough()
    ensures cut { ThreeCutMends }
    ensures done { ThreeLeaveTwo }
{}

/// The pages that are had where cleaning stops are those for which there is room.
pub fn room_is_exact()
    ensures needed { HadHasRoom }
    ensures enough { StoppedIsHad }
{}

/// With two free blocks a cleaning may be of any block for index pages, and of a data block if an entry of each kind is to spare: cut off it
/// leaves a volume that cleanings mend, and done a free block and the bound. Of a block for index pages it leaves two free. Without the entries to
/// spare it may strand the volume.
pub fn two_free_are_enough()
    ensures cut { TwoCutMends }
    ensures done { TwoLeaveOne }
    ensures index { TwoLeaveTwo }
    ensures spare { SpareIsNeeded }
{}
