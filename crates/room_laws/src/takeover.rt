ghost use Rattle.room_laws.specs.Takeover.{PlanFindsPlaces, PlanLeavesTwo, PlanGoesOn, PlanLoses, PlanLessens, PlanIsCut};

/// While shared blocks are cleaned by a plan the next one's pages find places, and at the end two blocks are free; or a block for index pages
/// can be made better first.
pub fn plans_find_places()
    ensures next { PlanFindsPlaces }
    ensures end { PlanLeavesTwo }
{}

/// The plan goes on from what a cleaning leaves, and from what a cut leaves, with fewer entries to spare.
pub fn plans_go_on()
    ensures done { PlanGoesOn }
    ensures lost { PlanLoses }
    ensures less { PlanLessens }
    ensures cut { PlanIsCut }
{}
