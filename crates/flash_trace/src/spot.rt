// A place in a run of a script.
ghost use Rattle.std.specs.Prelude.{◌≤◌, length};

use crate::ways::Ahead;
use plain_table::PlainMoment;

/// A place in a run of a script.
#[derive(Drop)]
pub(crate) struct Place {
    /// The moment after the calls that were answered.
    pub(crate) moment: PlainMoment,
    /// What comes next.
    pub(crate) ahead: Ahead,
    /// Where the line behind that begins in the script.
    pub(crate) at: usize,
    /// The number of that line, from 1.
    pub(crate) line: u32,
    /// How many replies were said whole.
    pub(crate) replies: u32,
    /// What was said.
    pub(crate) said: Vec<u8>,
    /// How many bytes of that are the whole replies.
    pub(crate) heard: usize,
    pub ghost within: { heard ≤ length said.items },
}

/// What a script has ahead, and the place and the number of the line behind that.
#[derive(Drop)]
pub(crate) struct Found {
    pub(crate) ahead: Ahead,
    pub(crate) at: usize,
    pub(crate) line: u32,
}

impl Place {
    ghost use Rattle.std.specs.Prelude.{◌≡◌, drop};

    /// What was said behind the last whole reply.
    pub(crate) fn part(&self) -> &[u8]
        ensures { result.now ≡ drop self.now.heard self.now.said.items }
    {
        &self.said[self.heard..]
    }
}
