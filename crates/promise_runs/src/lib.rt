//! The law of rehearsals: where the promises of a script are kept at each of its places, each power cut in each run of it keeps them.
#![tactic(auto)]

ghost use Rattle.geometry.specs.declared.geometry.Geometry.{Geometry};
ghost use Rattle.promise_runs.specs.Runs.{RunsKeep};

use nor_core::{Board, NorState, Source};

/// What a power cut in a run of a good script leaves keeps the promises that are in force there.
pub fn kept_runs<B: Board, S: Source>()
    ensures { (g : Geometry) → RunsKeep B.NorState S.Source g }
{}
