ghost use Rattle.room_laws.specs.Losing.{SpoilsNone, SpoilsOne, SpoilsOn, OpensFew, EmptyingIsCut, IndexLostIsCut, PagesLostAreCut, DeadIsCut};

/// Entries of data blocks that are spoiled take their places alone.
pub fn entries_are_spoiled()
    ensures none { SpoilsNone }
    ensures one { SpoilsOne }
    ensures on { SpoilsOn }
{}

/// As long as data blocks have too few places for the data pages of a block, it was emptied into no further data block.
pub fn few_are_opened()
    ensures { OpensFew }
{}

/// What is left of a cleaning in which copies were lost is what a cut leaves.
pub fn lost_copies_are_cuts()
    ensures whole { EmptyingIsCut }
    ensures index { IndexLostIsCut }
    ensures pages { PagesLostAreCut }
    ensures dead { DeadIsCut }
{}
