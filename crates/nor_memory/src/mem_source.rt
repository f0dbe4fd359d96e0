//! A script in memory.
ghost use Rattle.std.specs.Prelude.{◌≡◌, ◌+◌, ◌<◌, ◌≤◌, length};
ghost use Rattle.nor_core.specs.Count.{counted};

use nor_core::{Failed, Source};

/// A script in memory: it tells its bytes, and its reads fail only where that was asked for.
#[derive(Debug, Drop)]
pub struct MemSource {
    bytes: Vec<u8>,
    taken: usize,
    faults: u64,
    failing: u64,
    ghost within: { taken ≤ length bytes.items },
}

impl MemSource {
    ghost use Rattle.std.specs.Prelude.{◌≡◌, ◌<◌};

    /// A source of these bytes, none of whose reads is to fail.
    pub fn new(bytes: Vec<u8>) -> MemSource
        ensures tells { ⟦<MemSource as Source>⟧.tells result }
        ensures left { ⟦<MemSource as Source>⟧.left result ≡ bytes.items }
        ensures faults { ⟦<MemSource as Source>⟧.faults result ≡ 0 }
        ensures failing { result.failing ≡ 0 }
    {
        MemSource {
            bytes,
            taken: 0,
            faults: 0,
            failing: 0,
        }
    }

    /// The nth read from now on, counted from 1, fails and takes nothing. At most one read is to fail: the last asked
    /// counts, and 0 asks for none.
    pub fn fail_nth(&mut self, nth: u64)
        ensures left { ⟦<MemSource as Source>⟧.left self.new ≡
            ⟦<MemSource as Source>⟧.left self.old }
        ensures faults { ⟦<MemSource as Source>⟧.faults self.new ≡
            ⟦<MemSource as Source>⟧.faults self.old }
        ensures failing { self.new.failing ≡ nth }
    {
        self.failing = nth;
    }
}

impl Source for MemSource {
    ghost use Rattle.std.specs.Prelude.{◌≡◌, ◌+◌, ◌-◌, ◌<◌, ◌≤◌, ◌++◌, ◌↔◌, [], length, take, drop, min, OnOk, OnErr, IfOk, IsErr};
    ghost use Rattle.nor_core.specs.Count.{counted, Rose};

    ghost tells = { λ _. Unit {0} };

    ghost left = { λ s. drop s.taken s.bytes.items };

    ghost faults = { λ s. s.faults };

    fn read(&mut self, into: &mut [u8]) -> Result<usize, Failed>
        requires { 0 < length into.old }
        ensures within { IfOk result (λ n. n ≤ length into.old) }
        ensures took { ⟦<MemSource as Source>⟧.tells self.old → IfOk result
            (λ n. ⟦<MemSource as Source>⟧.left self.old ≡ take n into.new ++
            ⟦<MemSource as Source>⟧.left self.new) }
        ensures end { ⟦<MemSource as Source>⟧.tells self.old → IfOk result
            (λ n. n ≡ 0 → ⟦<MemSource as Source>⟧.left self.old ≡ []) }
        ensures end_new { ⟦<MemSource as Source>⟧.tells self.old → IfOk result
            (λ n. n ≡ 0 → ⟦<MemSource as Source>⟧.left self.new ≡ []) }
        ensures err { OnErr result (⟦<MemSource as Source>⟧.left self.new ≡
            ⟦<MemSource as Source>⟧.left self.old) }
        ensures told { ⟦<MemSource as Source>⟧.tells self.old →
            ⟦<MemSource as Source>⟧.tells self.new }
        ensures faults { ⟦<MemSource as Source>⟧.faults self.old ≤
            ⟦<MemSource as Source>⟧.faults self.new }
        ensures cause { OnErr result (Rose (⟦<MemSource as Source>⟧.faults self.old)
            (⟦<MemSource as Source>⟧.faults self.new)) }
        ensures count { IfOk result (λ n. n ≡ min (length into.old)
            (length (⟦<MemSource as Source>⟧.left self.old))) }
        ensures fails { IsErr result ↔ (self.old.failing ≡ 1) }
        ensures no_fault { OnOk result
            (⟦<MemSource as Source>⟧.faults self.new ≡ ⟦<MemSource as Source>⟧.faults self.old) }
        ensures one_fault { OnErr result
            (⟦<MemSource as Source>⟧.faults self.new ≡ counted
            (⟦<MemSource as Source>⟧.faults self.old)) }
        ensures counts_down { self.new.failing ≡ self.old.failing - 1 }
    {
        let fails = self.failing == 1;
        self.failing = self.failing.saturating_sub(1);
        if fails {
            self.faults = self.faults.saturating_add(1);
            return Err(Failed);
        }
        let left = &self.bytes[self.taken..];
        let n = left.len().min(into.len());
        into[..n].copy_from_slice(&left[..n]);
        self.taken += n;
        Ok(n)
    }
}
