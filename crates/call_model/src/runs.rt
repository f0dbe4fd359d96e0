ghost use Rattle.geometry.specs.declared.geometry.Geometry.{Geometry};
ghost use Rattle.call_model.specs.Writing.{WriteIsDone, DoneIsWrite, EmptyIsDone, ContinuesAccepted, BegunMoment, OnMoment, DirectMoment, WaitBegins};
ghost use Rattle.call_model.specs.Writing.{WaitGoesOn, WaitSettles, WaitEnds, EndedAt};

/// What a write answers where it isn't refused, its steps, and whether it goes on with what waits.
pub fn writes_are_done()
    ensures done { (g : Geometry) → WriteIsDone g }
    ensures only { (g : Geometry) → DoneIsWrite g }
    ensures empty { (g : Geometry) → EmptyIsDone g }
    ensures accepted { (g : Geometry) → ContinuesAccepted g }
{}

/// The moment after such a write.
pub fn writes_move_on()
    ensures begins { (g : Geometry) → BegunMoment g }
    ensures goes_on { (g : Geometry) → OnMoment g }
    ensures direct { (g : Geometry) → DirectMoment g }
{}

/// After a write that may wait its run does.
pub fn runs_wait()
    ensures begins { (g : Geometry) → WaitBegins g }
    ensures goes_on { (g : Geometry) → WaitGoesOn g }
{}

/// A run that is written into its file publishes no step that didn't wait, and leaves the table of the state.
pub fn runs_settle()
    ensures steps { (g : Geometry) → WaitSettles g }
    ensures end { (g : Geometry) → WaitEnds g }
{}

/// An image with the table of a state is that of a volume where nothing waits.
pub fn settled_volumes_stand()
    ensures { (g : Geometry) → EndedAt g }
{}
