ghost use Rattle.room_laws.specs.Order.{StaysStart, StaysSet, StaysEnd};
ghost use Rattle.room_laws.specs.Steps.{ReachedStart, ReachedIndex, ReachedData, ReachedKill, ReachedEnd};

/// The steps of a cleaning, page by page, lead to what a cleaning is.
pub fn steps_clean()
    ensures start { ReachedStart }
    ensures index { ReachedIndex }
    ensures pages { ReachedData }
    ensures kill { ReachedKill }
    ensures end { ReachedEnd }
{}

/// They leave the other data blocks data blocks.
pub fn steps_keep_data()
    ensures start { StaysStart }
    ensures set { StaysSet }
    ensures end { StaysEnd }
{}
