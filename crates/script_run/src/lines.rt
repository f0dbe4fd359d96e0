ghost use Rattle.std.specs.Prelude.{◌≡◌, ℕ, ◌+◌, ◌-◌, ◌<◌, ◌≤◌, ◌++◌, ◌∷◌, List, [], length, take, drop, min, slice_range, OnOk, OnErr, IfOk};
ghost use Rattle.std.proofs.Common.{get_or};
ghost use Rattle.std.specs.Option.{IfSome, IfNone};
ghost use Rattle.nor_core.specs.Count.{Rose};
ghost use Rattle.call_script.specs.Lines.{NoBreak};

use memchr::memchr;
use nor_core::{Failed, Source};

/// Bytes of the longest line, without the one that ends it.
pub(crate) const LINE: usize = 4096;

/// How many bytes of a script are read.
pub(crate) const LIMIT: usize = 16_777_216;

/// The lines of a script that is read in pieces. The bytes that were taken and are not handed out yet stand
/// from `start` to `end`.
#[derive(Drop)]
pub(crate) struct Lines<'l> {
    pub(crate) buf: &'l mut [u8],
    pub(crate) start: usize,
    pub(crate) end: usize,
    pub(crate) taken: usize,
    // How many lines were handed out.
    pub(crate) handed: u32,
    pub ghost ordered: { start ≤ end },
    pub ghost inside: { end ≤ length buf.now },
    pub ghost room: { 4097 ≤ length buf.now },
    pub ghost few: { taken ≤ 16777216 },
    pub ghost counted: { handed + (end - start) ≤ taken },
}

// The first byte that ends a line. (Many bytes are looked at at once.)
fn find_break(bytes: &[u8]) -> Option<usize>
    ensures found { IfSome result (λ i. (i < length bytes.now) × (get_or bytes.now i 0 ≡ 10) × NoBreak (take i bytes.now)) }
    ensures none { IfNone result (NoBreak bytes.now) }
{
    memchr(b'\n', bytes)
}

fn to_front(buf: &mut [u8], start: usize, end: usize)
    requires ordered { start ≤ end }
    requires inside { end ≤ length buf.old }
    ensures { take (end - start) buf.new ≡ slice_range buf.old start end }
{
    buf.copy_within(start..end, 0);
}

// Reads into the buffer behind what stands there.
fn read_behind<S: Source>(
    source: &mut S,
    buf: &mut [u8],
    end: usize,
    most: usize,
) -> Result<usize, Failed>
    requires some { 0 < most }
    requires inside { end + most ≤ length buf.old }
    ensures within { IfOk result (λ n. n ≤ most) }
    ensures took { S.tells source.old → IfOk result (λ n. take end buf.old ++ S.left source.old ≡ take (end + n) buf.new ++ S.left source.new) }
    ensures finished { S.tells source.old → IfOk result (λ n. n ≡ 0 → S.left source.old ≡ []) }
    ensures finished_new { S.tells source.old → IfOk result (λ n. n ≡ 0 → S.left source.new ≡ []) }
    ensures same { take end buf.new ≡ take end buf.old }
    ensures err { OnErr result (S.left source.new ≡ S.left source.old) }
    ensures told { S.tells source.old → S.tells source.new }
    ensures faults { S.faults source.old ≤ S.faults source.new }
    ensures cause { OnErr result (Rose (S.faults source.old) (S.faults source.new)) }
{
    source.read(&mut buf[end..end + most])
}

impl<'l> Lines<'l> {
    pub(crate) fn new(buf: &'l mut [u8]) -> Self
        requires { 4097 ≤ length buf.old }
        ensures start { result.start ≡ 0 }
        ensures end { result.end ≡ 0 }
        ensures taken { result.taken ≡ 0 }
        ensures handed { result.handed ≡ 0 }
    {
        Lines {
            buf,
            start: 0,
            end: 0,
            taken: 0,
            handed: 0,
        }
    }

    fn at_break(&self) -> Option<usize>
        ensures found { IfSome result (λ i. (self.now.start + i < self.now.end) × NoBreak (slice_range self.now.buf.now self.now.start (self.now.start + i))
            × (slice_range self.now.buf.now self.now.start self.now.end
            ≡ slice_range self.now.buf.now self.now.start (self.now.start + i) ++ 10 ∷ slice_range self.now.buf.now (self.now.start + i + 1) self.now.end)) }
        ensures none { IfNone result (NoBreak (slice_range self.now.buf.now self.now.start self.now.end)) }
    {
        find_break(&self.buf[self.start..self.end])
    }

    /// Hands out the next line that is ended: it stands from the old start to the result.
    pub(crate) fn take_line(&mut self) -> Option<usize>
        ensures buf { self.new.buf.now ≡ self.old.buf.now }
        ensures same_buf { self.new.buf.ghost_name ≡ self.old.buf.ghost_name }
        ensures end { self.new.end ≡ self.old.end }
        ensures taken { self.new.taken ≡ self.old.taken }
        ensures within { IfSome result (λ to. (self.old.start ≤ to) × (to < self.new.start)) }
        ensures line { IfSome result (λ to. NoBreak (slice_range self.old.buf.now self.old.start to) × (slice_range self.old.buf.now self.old.start self.old.end
            ≡ slice_range self.old.buf.now self.old.start to ++ 10 ∷ slice_range self.new.buf.now self.new.start self.new.end)) }
        ensures none { IfNone result (NoBreak (slice_range self.old.buf.now self.old.start self.old.end) × (self.new.start ≡ self.old.start)) }
        ensures handed { IfSome result (λ to. self.new.handed ≡ self.old.handed + 1) }
        ensures not_handed { IfNone result (self.new.handed ≡ self.old.handed) }
    {
        let at = self.at_break()?;
        let to = self.start + at;
        self.start = to + 1;
        self.handed = self.handed.saturating_add(1);
        Some(to)
    }

    /// The bytes that stand there.
    pub(crate) fn piece(&self, from: usize, to: usize) -> &[u8]
        requires ordered { from ≤ to }
        requires inside { to ≤ length self.now.buf.now }
        ensures { result.now ≡ slice_range self.now.buf.now from to }
    {
        &self.buf[from..to]
    }

    /// Takes more bytes, at most up to the limit.
    pub(crate) fn fill<S: Source>(&mut self, source: &mut S) -> Result<usize, Failed>
        requires short { self.old.end ≤ self.old.start + 4096 }
        requires below { self.old.taken < 16777216 }
        ensures same_buf { self.new.buf.ghost_name ≡ self.old.buf.ghost_name }
        ensures handed { self.new.handed ≡ self.old.handed }
        ensures more { IfOk result (λ n. (self.new.taken ≡ self.old.taken + n) × (self.new.start ≡ 0) × (self.new.end ≡ (self.old.end - self.old.start) + n)) }
        ensures rest { S.tells source.old → slice_range self.old.buf.now self.old.start self.old.end ++ S.left source.old
            ≡ slice_range self.new.buf.now self.new.start self.new.end ++ S.left source.new }
        ensures finished { S.tells source.old → IfOk result (λ n. n ≡ 0 → S.left source.old ≡ []) }
        ensures finished_new { S.tells source.old → IfOk result (λ n. n ≡ 0 → S.left source.new ≡ []) }
        ensures finished_same { IfOk result
            (λ n. n ≡ 0 → slice_range self.new.buf.now self.new.start self.new.end ≡ slice_range self.old.buf.now self.old.start self.old.end) }
        ensures err { OnErr result ((slice_range self.new.buf.now self.new.start self.new.end ≡ slice_range self.old.buf.now self.old.start self.old.end)
            × (S.left source.new ≡ S.left source.old)) }
        ensures told { S.tells source.old → S.tells source.new }
        ensures faults { S.faults source.old ≤ S.faults source.new }
        ensures cause { OnErr result (Rose (S.faults source.old) (S.faults source.new)) }
    {
        let held = self.end - self.start;
        to_front(self.buf, self.start, self.end);
        self.start = 0;
        self.end = held;
        let most = (self.buf.len() - held).min(LIMIT - self.taken);
        let n = read_behind(source, self.buf, held, most)?;
        self.end = held + n;
        self.taken += n;
        Ok(n)
    }
}
