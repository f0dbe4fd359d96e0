//! Promises that the comments of a script make of what a power cut leaves, and what it takes to keep them.
#![tactic(auto)]

mod form;

ghost use Rattle.geometry.specs.declared.geometry.Geometry.{Geometry};
ghost use Rattle.promise_model.specs.Laws.{CutsKeep, EndsKeep};
ghost use Rattle.promise_model.specs.Verdicts.{KeptIsGood, BrokenIsStep};

pub use form::Form;

/// Where the promises are kept at each place of a script, each run of it keeps them at each power cut, and at its end.
pub fn kept_promises_hold()
    ensures cuts { (g : Geometry) → CutsKeep g }
    ensures ends { (g : Geometry) → EndsKeep g }
{}

/// What a rehearsal tells is so: it finds a script good only where the promises are kept at each place, and a table that is told as breaking one
/// is the first published step that does.
pub fn verdicts_are_right()
    ensures kept { (g : Geometry) → KeptIsGood g }
    ensures broken { (g : Geometry) → BrokenIsStep g }
{}
