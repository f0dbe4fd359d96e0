ghost use Rattle.std.specs.Prelude.{◌≡◌, ◌≤◌, ℕ, List, length};
ghost use Rattle.table_model.specs.Reply.{Gives, answered};
ghost use Rattle.file_calls.specs.Replies.{shown_by};

use table_model::{FsErr, Info, Reply, Stat};

/// What a call told, refusals too. Bytes that were read stand at the front of those that were lent for them.
#[derive(Debug, Drop)]
pub enum Told {
    /// Done.
    Done,
    /// A number: a descriptor or an offset in bytes.
    Number(u32),
    /// How many bytes were read.
    Bytes(u32),
    /// A file's record.
    File(Stat),
    /// There is no further file.
    NoMore,
    /// How full the volume is.
    Room(Info),
    /// Refused.
    Refusal(FsErr),
}

impl Told {
    /// The reply that a script's line tells, with the bytes that were lent.
    pub fn reply(self, lent: &[u8]) -> Reply<'_>
        ensures shows { answered result ≡ shown_by self lent.now }
        ensures within { (bytes : List ℕ) → answered result ≡ Gives bytes → length bytes ≤ length lent.now }
    {
        match self {
            Told::Done => Reply::Done,
            Told::Number(number) => Reply::Number(number),
            Told::Bytes(count) => Reply::Bytes(&lent[..lent.len().min(count as usize)]),
            Told::File(stat) => Reply::File(stat),
            Told::NoMore => Reply::NoMore,
            Told::Room(info) => Reply::Room(info),
            Told::Refusal(why) => Reply::Refusal(why),
        }
    }
}
