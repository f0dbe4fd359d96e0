ghost use Rattle.room_laws.specs.Leaving.{EmptyingStarts, IndexLeaves, PageLeaves, IndexRenewed, EmptyingCleans, CleanedRearranged};

/// Live pages leave a block, one after the other, and each index page is renewed after the data pages of its batch.
pub fn pages_leave()
    ensures starts { EmptyingStarts }
    ensures index { IndexLeaves }
    ensures pages { PageLeaves }
    ensures renewed { IndexRenewed }
{}

/// Once all have left and the block is fresh it was cleaned, in whatever order the blocks stand.
pub fn left_blocks_are_cleaned()
    ensures cleans { EmptyingCleans }
    ensures rearranged { CleanedRearranged }
{}
