ghost use Rattle.std.specs.Prelude.{◌≡◌, ℕ, ◌+◌, ◌<◌, ◌≤◌, ◌++◌, List, [], length, take, OnOk, OnErr, IfOk};
ghost use Rattle.nor_core.specs.Count.{Rose};

use crate::Failed;

/// Where a script comes from: bytes that are taken in pieces, from the first on.
pub trait Source {
    // Whether it tells its bytes.
    ghost tells: { Self → Type 0 };

    // The bytes that are left, where they are told.
    ghost left: { Self → List ℕ };

    // A count of failures that never falls: a read that fails raises it. At the last value of a u64 it stands still, and
    // counts as risen.
    ghost faults: { Self → ℕ };

    /// Takes the next bytes into the front of `into`, which is not empty, and answers how many: 0 only at the end, and
    /// maybe fewer than `into` has room for before it. A failed read takes nothing.
    fn read(&mut self, into: &mut [u8]) -> Result<usize, Failed>
        requires { 0 < length into.old }
        ensures within { IfOk result (λ n. n ≤ length into.old) }
        ensures took { tells self.old → IfOk result (λ n. left self.old ≡ take n into.new ++ left self.new) }
        ensures end { tells self.old → IfOk result (λ n. n ≡ 0 → left self.old ≡ []) }
        ensures end_new { tells self.old → IfOk result (λ n. n ≡ 0 → left self.new ≡ []) }
        ensures err { OnErr result (left self.new ≡ left self.old) }
        ensures told { tells self.old → tells self.new }
        ensures faults { faults self.old ≤ faults self.new }
        ensures cause { OnErr result (Rose (faults self.old) (faults self.new)) };
}
