//! What may stand between two events of a run, told by its calls: laws for a judge of traces.
#![tactic(auto)]

ghost use Rattle.geometry.specs.declared.geometry.Geometry.{Geometry};
ghost use Rattle.trace_laws.specs.Counting.{CountsReplies};
ghost use Rattle.trace_laws.specs.Standing.{WalksOn};

/// The replies to all calls of a run are counted, whatever is said behind them.
#[tactic(auto, using(crate::proofs::Counting::counts_all))]
pub fn replies_are_counted()
    ensures { (g : Geometry) → CountsReplies g }
{}

/// What may stand in a run is told by its first call: before its reply, in it, or behind it.
#[tactic(auto, using(crate::proofs::Standing::walks_on))]
pub fn runs_are_walked()
    ensures { (g : Geometry) → WalksOn g }
{}
