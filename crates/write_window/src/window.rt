ghost use Rattle.std.specs.Prelude.{◌≡◌, ◌+◌, ◌<◌, ◌≤◌, ◌^◌, ℕ, List, length, Some, None, true, option_map};
ghost use Rattle.std.specs.Option.{is_some};
ghost use Rattle.write_window.specs.Runs.{page_end, accepted, with_more, start_of, id_of, bytes_of};
ghost use Rattle.write_window.specs.Shown.{run_in};

/// The numbers of at most one run of written bytes, which all lie in one data page of one file. Its bytes stand at the front of lent
/// ones, which are given to each function.
#[derive(Clone, Copy, Debug, PartialEq, Eq)]
pub struct Held {
    /// Whether there is a run.
    pub used: bool,
    /// The descriptor that it was written through.
    pub fd: u16,
    /// The id of its file.
    pub id: u16,
    /// The place of its first byte in the file.
    pub start: u32,
    /// The number of its bytes.
    pub taken: u32,
}

// The end of the data page of a place, in bytes of the file.
fn end_of_page(body: u32, at: u32) -> u64
    requires some { 0 < body }
    requires few { body < 2 ^ 16 }
    ensures { result ≡ page_end body at }
{
    (u64::from(at / body) + 1) * u64::from(body)
}

impl Held {
    ghost use Rattle.std.specs.Prelude.{◌≡◌, ◌+◌, ◌<◌, ◌≤◌, ◌^◌, ℕ, List, length, Some, None, true, option_map};
    ghost use Rattle.std.specs.Option.{is_some};
    ghost use Rattle.write_window.specs.Runs.{accepted, with_more, start_of, id_of, bytes_of};
    ghost use Rattle.write_window.specs.Shown.{run_in};

    /// No run.
    pub fn none() -> Held
        ensures empty { (bytes : List ℕ) → run_in result bytes ≡ None }
        ensures short { result.taken ≡ 0 }
    {
        Held {
            used: false,
            fd: 0,
            id: 0,
            start: 0,
            taken: 0,
        }
    }

    /// Whether there is a run.
    pub fn is_used(&self) -> bool
        ensures { (bytes : List ℕ) → result ≡ is_some (run_in self.now bytes) }
    {
        self.used
    }

    /// Whether a write of `len` bytes at the place `at` of a descriptor's file continues the run: it goes through the same descriptor,
    /// starts where the run ends, and lies in the run's data page, of `body` file bytes.
    #[tactic(auto, unfolding(crate::specs::Runs::accepted))]
    pub fn accepts(&self, body: u32, fd: u16, at: u64, len: usize) -> bool
        requires some { 0 < body }
        requires few { body < 2 ^ 16 }
        ensures { (bytes : List ℕ) → self.now.taken ≤ length bytes → result ≡ accepted body (run_in self.now bytes) fd at len }
    {
        let end = u64::from(self.start) + u64::from(self.taken);
        let page_end = end_of_page(body, self.start);
        if self.used && self.fd == fd && end == at && end <= page_end {
            len as u64 <= page_end - end
        } else {
            false
        }
    }

    /// Where the run ends in its file, in bytes: behind its last byte; 0 without a run.
    pub fn end(&self) -> u64
        ensures { (bytes : List ℕ) → self.now.taken ≤ length bytes → result ≡ start_of (run_in self.now bytes) + length (bytes_of (run_in self.now bytes)) }
    {
        if self.used {
            u64::from(self.start) + u64::from(self.taken)
        } else {
            0
        }
    }

    /// The run's bytes.
    pub fn kept<'k>(&self, bytes: &'k [u8]) -> &'k [u8]
        requires { self.now.taken ≤ length bytes.now }
        ensures { result.now ≡ bytes_of (run_in self.now bytes.now) }
    {
        if self.used {
            &bytes[..self.taken as usize]
        } else {
            &[]
        }
    }
}

/// Begins a run: bytes that lie in one data page are kept at the front of the lent ones.
pub fn begin(bytes: &mut [u8], fd: u16, id: u16, at: u32, from: &[u8]) -> Held
    requires room { length from.now ≤ length bytes.old }
    requires few { length from.now < 2 ^ 32 }
    ensures run { run_in result bytes.new ≡ Some (record { fd = fd; id = id; start = at; bytes = from.now }) }
    ensures taken { result.taken ≡ length from.now }
    ensures size { length bytes.new ≡ length bytes.old }
{
    bytes[..from.len()].copy_from_slice(from);
    Held {
        used: true,
        fd,
        id,
        start: at,
        taken: from.len() as u32,
    }
}

/// Adds the bytes of a write that continues a run.
pub fn push(held: &Held, bytes: &mut [u8], from: &[u8]) -> Held
    requires used { held.now.used ≡ true }
    requires room { held.now.taken + length from.now ≤ length bytes.old }
    requires few { held.now.taken + length from.now < 2 ^ 32 }
    ensures run { run_in result bytes.new ≡ option_map (with_more from.now) (run_in held.now bytes.old) }
    ensures taken { result.taken ≡ held.now.taken + length from.now }
    ensures size { length bytes.new ≡ length bytes.old }
{
    let taken = held.taken as usize;
    let end = taken + from.len();
    bytes[taken..end].copy_from_slice(from);
    Held {
        taken: end as u32,
        ..*held
    }
}
