ghost use Rattle.std.specs.Prelude.{◌≡◌};
ghost use Rattle.table_model.specs.Numbers.{number_of};
ghost use Rattle.table_model.specs.declared.error.FsErr.{FsErr};

use nor_core::Failed;
use thiserror::Error;

/// An id and a span: which page of which file.
#[derive(Clone, Copy, Debug, PartialEq, Eq, Error)]
#[error("page {span} of id {id}")]
pub struct Tag {
    /// The file's id, with bit 15 set in an index page.
    pub id: u16,
    /// The page's place among the pages of its kind of that file, from 0.
    pub span: u16,
}

/// A page that doesn't read as what was written there. Where no page was found, `page` is 0xFFFF and `found`
/// is (0xFFFF, 0xFFFF); where a page that the call itself made fresh reads otherwise, `wanted` is that.
#[derive(Clone, Copy, Debug, PartialEq, Eq, Error)]
#[error("at {page} {wanted} is wanted, and {found} is there")]
pub struct Differ {
    /// The page's number in the volume.
    pub page: u16,
    /// What was to be there.
    pub wanted: Tag,
    /// What is there.
    pub found: Tag,
}

impl Differ {
    ghost use Rattle.std.specs.Prelude.{◌≡◌, ◌≢◌};

    /// That no page was found where one was wanted: no page number, and an id and a span that no page has.
    pub fn no_page(wanted: Tag) -> Differ
        ensures page { result.page ≡ 0xFFFF }
        ensures wanted { result.wanted ≡ wanted }
        ensures no_id { result.found.id ≡ 0xFFFF }
        ensures no_span { result.found.span ≡ 0xFFFF }
        ensures apart { wanted.span ≢ 0xFFFF → result.wanted ≢ result.found }
    {
        Differ {
            page: 0xFFFF,
            wanted,
            found: Tag {
                id: 0xFFFF,
                span: 0xFFFF,
            },
        }
    }
}

/// Why a call was refused.
#[derive(Clone, Copy, Debug, PartialEq, Eq, Error)]
pub enum FsErr {
    /// An earlier call failed after it had asked the device for a program or an erase.
    #[error("an earlier call failed after it had asked for a program or an erase")]
    Failed,
    /// A name is empty or holds a zero byte.
    #[error("the name is empty or holds a zero byte")]
    BadName,
    /// A name has more than 31 bytes.
    #[error("the name has more than 31 bytes")]
    NameTooLong,
    /// Flags that are none, or meta bytes of another length than the volume's.
    #[error("the flags are none, or the meta bytes of another length than the volume's")]
    BadFlags,
    /// No descriptor of that number is open.
    #[error("no descriptor of that number is open")]
    BadDescriptor,
    /// Every descriptor is open.
    #[error("every descriptor is open")]
    OutOfDescriptors,
    /// There is no such file.
    #[error("there is no such file")]
    NotFound,
    /// The file is there, and was to be made anew.
    #[error("the file is there")]
    FileExists,
    /// The name to be made is there.
    #[error("the new name is there")]
    ConflictingName,
    /// The descriptor was opened without reading.
    #[error("the descriptor was opened without reading")]
    NotReadable,
    /// The descriptor was opened without writing.
    #[error("the descriptor was opened without writing")]
    NotWritable,
    /// The position isn't inside the file.
    #[error("the position isn't inside the file")]
    SeekBounds,
    /// The call needs a page, and fewer than two blocks are free.
    #[error("the call needs a page, and fewer than two blocks are free")]
    Tight,
    /// The table after the call would not fit the volume.
    #[error("the table after the call would not fit the volume")]
    Full,
    /// The device failed.
    #[error("the device failed")]
    DeviceFault,
    /// A page doesn't read as what was written there.
    #[error("a page doesn't read as what was written there: {0}")]
    Damaged(Differ),
}

impl FsErr {
    /// The number that a reply tells, SPIFFS's own where it has one.
    pub fn number(self) -> i32
        ensures { result ≡ number_of self }
    {
        match self {
            FsErr::Failed => -11005,
            FsErr::BadName => -11000,
            FsErr::NameTooLong => -10036,
            FsErr::BadFlags => -11001,
            FsErr::BadDescriptor => -10010,
            FsErr::OutOfDescriptors => -10007,
            FsErr::NotFound => -10002,
            FsErr::FileExists => -10030,
            FsErr::ConflictingName => -10023,
            FsErr::NotReadable => -10022,
            FsErr::NotWritable => -10021,
            FsErr::SeekBounds => -11002,
            FsErr::Tight => -11003,
            FsErr::Full => -10001,
            FsErr::DeviceFault => -11006,
            FsErr::Damaged(_) => -11007,
        }
    }
}

impl From<Failed> for FsErr {
    ghost from_gives = { λ _ why. why ≡ FsErr.DeviceFault };

    fn from(_: Failed) -> FsErr {
        FsErr::DeviceFault
    }
}
