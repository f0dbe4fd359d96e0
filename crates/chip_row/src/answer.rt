//! What an answer leaves of counts.
ghost use Rattle.std.specs.Prelude.{◌≡◌, ◌≤◌, OnOk, OnErr, Some};
ghost use Rattle.nor_core.specs.Count.{counted};

use nor_core::Failed;

// The count of faults after a call with this answer.
pub(crate) fn faults_after(faults: u64, answer: Result<(), Failed>) -> u64
    ensures kept { OnOk answer (result ≡ faults) }
    ensures rises { OnErr answer (result ≡ counted faults) }
    ensures never_falls { faults ≤ result }
{
    match answer {
        Ok(()) => faults,
        Err(_) => faults.saturating_add(1),
    }
}

// Which chip's call last failed, after a call of chip `i` with this answer.
pub(crate) fn fuse_after(fuse: Option<usize>, i: usize, answer: Result<(), Failed>) -> Option<usize>
    ensures kept { OnOk answer (result ≡ fuse) }
    ensures names { OnErr answer (result ≡ Some i) }
{
    match answer {
        Ok(()) => fuse,
        Err(_) => Some(i),
    }
}
