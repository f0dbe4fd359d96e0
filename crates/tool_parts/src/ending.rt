ghost use Rattle.std.specs.Prelude.{◌≡◌, ◌+◌, ◌<◌, ◌≤◌, ◌++◌, [], length, decimal};
ghost use Rattle.arrayvec.specs.ArrayVec.{array_vec_len};
ghost use Rattle.tool_parts.specs.Endings.{ClosesWith, OnlyCloses};
ghost use Rattle.tool_parts.specs.Closing.{status_of, closing_of, closing_line_of, part_word, short_text, differ_text, spoiled_text, full_text};

use arrayvec::ArrayVec;
use geometry::GeoErr;
use itoa::Buffer;
use nor_core::{Board, NorState};
use table_model::Differ;
use vol_mount::Part;

/// How a command ends.
#[derive(Clone, Copy, Debug, PartialEq, Eq)]
pub enum Ending {
    /// Everything was done.
    Done,
    /// The words are no command.
    Usage,
    /// The numbers or the device are refused.
    Geometry(GeoErr),
    /// Lent memory is too short.
    ShortBuffer { part: Part, need: u32, given: usize },
    /// Two or more blocks lack their magic: their number.
    NotAFs(u32),
    /// Some blocks hold wanted pages of both kinds, and the index pages find no places: how many blocks.
    Mixed(u32),
    /// A line of the script isn't in the grammar: its number, from 1.
    BadLine(u32),
    /// The volume has no room for the folder's files: so many index pages and data pages.
    Full { index: u128, data_pages: u128 },
    /// The board failed.
    BoardFault,
    /// The script could not be read.
    SourceFault,
    /// The folder failed.
    FolderFault,
    /// The script is too long.
    TooLong,
    /// Some ids are damaged: their number.
    Damaged(u32),
    /// The folder has a name that no file of a volume can have, or one twice: the place of its
    /// file, from 0.
    BadName(u32),
    /// The check left fewer than two free blocks.
    Tight(u32),
    /// No file has this id.
    NoSuchId(u16),
    /// The board that is only read failed, where a command has two.
    SourceChipFault,
    /// A page doesn't read as what was written there.
    Differ(Differ),
}

/// A line of at most 144 bytes: a closing line, or a summary before it.
pub type Closing = ArrayVec<u8, 144>;

impl Ending {
    /// The status that the command answers.
    pub fn status(self) -> u8
        ensures { result ≡ status_of self }
    {
        match self {
            Ending::Done => 0,
            Ending::Usage => 1,
            Ending::Geometry(_) => 2,
            Ending::NotAFs(_) => 3,
            Ending::Mixed(_) => 4,
            Ending::BadLine(_) => 5,
            Ending::Full { .. } => 6,
            Ending::BoardFault => 7,
            Ending::SourceFault => 8,
            Ending::FolderFault => 9,
            Ending::ShortBuffer { .. } => 10,
            Ending::TooLong => 11,
            Ending::Damaged(_) => 12,
            Ending::BadName(_) => 13,
            Ending::Tight(_) => 14,
            Ending::NoSuchId(_) => 17,
            Ending::SourceChipFault => 18,
            Ending::Differ(_) => 21,
        }
    }
}

// The word for a part of the lent memory.
fn word_of(part: Part) -> &'static [u8]
    ensures word { result.now ≡ part_word part }
    ensures short { length result.now ≤ 6 }
{
    match part {
        Part::Work => b"work",
        Part::Slots => b"slots",
        Part::Cache => b"cache",
        Part::Check => b"check",
        Part::Window => b"window",
        Part::Line => b"line",
    }
}

// Appends a piece to a line.
pub fn put(line: &mut Closing, piece: &[u8])
    requires { array_vec_len line.old + length piece.now ≤ 144 }
    ensures items { line.new.items ≡ line.old.items ++ piece.now }
    ensures len { array_vec_len line.new ≡ array_vec_len line.old + length piece.now }
{
    let _ = line.try_extend_from_slice(piece);
}

// Appends a label and a number to a line.
pub fn put_count(line: &mut Closing, label: &[u8], number: u64)
    requires { array_vec_len line.old + length label.now + 20 ≤ 144 }
    ensures items { line.new.items ≡ line.old.items ++ (label.now ++ decimal number) }
    ensures len { array_vec_len line.new ≤ array_vec_len line.old + length label.now + 20 }
{
    put(line, label);
    put(line, Buffer::new().format(number).as_bytes());
}

// Appends a label and a number of pages to a line.
fn put_pages(line: &mut Closing, label: &[u8], pages: u128)
    requires { array_vec_len line.old + length label.now + 40 ≤ 144 }
    ensures items { line.new.items ≡ line.old.items ++ (label.now ++ decimal pages) }
    ensures len { array_vec_len line.new ≤ array_vec_len line.old + length label.now + 40 }
{
    put(line, label);
    put(line, Buffer::new().format(pages).as_bytes());
}

// Appends for how many pages there is no room.
fn put_full(line: &mut Closing, index: u128, data_pages: u128)
    requires { line.old.items ≡ [] }
    ensures text { line.new.items ≡ full_text index data_pages }
    ensures short { array_vec_len line.new ≤ 127 }
{
    put_pages(line, b"! full, index ", index);
    put_pages(line, b" data ", data_pages);
}

// Appends how much of a part of the lent memory is needed and given.
fn put_short(line: &mut Closing, part: Part, need: u32, given: usize)
    requires { line.old.items ≡ [] }
    ensures text { line.new.items ≡ short_text part need given }
    ensures short { array_vec_len line.new ≤ 127 }
{
    put(line, b"! short buffer ");
    put(line, word_of(part));
    put_count(line, b" need ", u64::from(need));
    put_count(line, b" given ", given as u64);
}

// Appends the two values of a page that doesn't read as what was written there.
fn put_differ(line: &mut Closing, differ: Differ)
    requires { line.old.items ≡ [] }
    ensures text { line.new.items ≡ differ_text differ }
    ensures short { array_vec_len line.new ≤ 127 }
{
    put_count(line, b"! differ ", u64::from(differ.page));
    put_count(line, b" ", u64::from(differ.wanted.id));
    put_count(line, b" ", u64::from(differ.wanted.span));
    put_count(line, b" ", u64::from(differ.found.id));
    put_count(line, b" ", u64::from(differ.found.span));
}

// Appends how many blocks lack their magic.
fn put_spoiled(line: &mut Closing, spoiled: u32)
    requires { line.old.items ≡ [] }
    ensures text { line.new.items ≡ spoiled_text spoiled }
    ensures short { array_vec_len line.new ≤ 127 }
{
    put_count(line, b"! not a volume, ", u64::from(spoiled));
    put(line, b" blocks without magic");
}

// Writes the closing line of an ending, without the byte that ends it; nothing where there is none.
fn put_closing(line: &mut Closing, ending: Ending)
    requires { line.old.items ≡ [] }
    ensures text { line.new.items ≡ closing_of ending }
    ensures short { array_vec_len line.new ≤ 127 }
{
    match ending {
        Ending::Done | Ending::BoardFault => {}
        Ending::Usage => put(line, b"! usage"),
        Ending::Geometry(why) => put_count(line, b"! geometry ", u64::from(why.code())),
        Ending::ShortBuffer { part, need, given } => put_short(line, part, need, given),
        Ending::NotAFs(spoiled) => put_spoiled(line, spoiled),
        Ending::Mixed(blocks) => put_count(line, b"! mixed blocks ", u64::from(blocks)),
        Ending::BadLine(number) => put_count(line, b"! bad line ", u64::from(number)),
        Ending::Full { index, data_pages } => put_full(line, index, data_pages),
        Ending::SourceFault => put(line, b"! script fault"),
        Ending::FolderFault => put(line, b"! folder fault"),
        Ending::TooLong => put(line, b"! script longer than 16777216 bytes"),
        Ending::Damaged(count) => put_count(line, b"! damaged ", u64::from(count)),
        Ending::BadName(at) => put_count(line, b"! bad name ", u64::from(at)),
        Ending::Tight(free) => put_count(line, b"! free blocks ", u64::from(free)),
        Ending::NoSuchId(id) => put_count(line, b"! no id ", u64::from(id)),
        Ending::SourceChipFault => put(line, b"! source chip fault"),
        Ending::Differ(differ) => put_differ(line, differ),
    }
}

/// The closing line of an ending, with the byte that ends it; empty where there is none.
pub fn closing_line(ending: Ending) -> Closing
    ensures { result.items ≡ closing_line_of ending }
{
    let mut line = Closing::new();
    put_closing(&mut line, ending);
    if !line.is_empty() {
        put(&mut line, b"\n");
    }
    line
}

/// Says a line, and answers a status: 7 where the board failed. An empty line isn't said.
pub fn close_with<B: Board>(board: &mut B, line: &[u8], status: u8) -> u8
    ensures { ClosesWith B.NorState board.old board.new line.now status result }
{
    if line.is_empty() {
        return status;
    }
    match board.say(line) {
        Ok(()) => status,
        Err(_) => Ending::BoardFault.status(),
    }
}

/// Says the closing line of an ending, and answers the status: 7 where the board failed.
pub fn conclude<B: Board>(board: &mut B, ending: Ending) -> u8
    ensures { OnlyCloses B.NorState board.old board.new ending result }
{
    close_with(board, closing_line(ending).as_slice(), ending.status())
}
