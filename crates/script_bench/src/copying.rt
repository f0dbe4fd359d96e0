//! Copies of a volume in memory onto another one, whose power is cut at each of their programs, erases and replies, and in which a call of
//! either device fails.
use crate::bench::words_of;
use crate::tables::is_same;
use crate::{Bench, Fault, Swept, Told, Trouble, are_same, listed};
use copy_tool::copy_tool;
use nor_memory::CallKind;
use plain_image::Record;

/// The status where the target's device failed.
const DEVICE_FAULT: u8 = 7;

/// The status where the source's device failed.
const SOURCE_FAULT: u8 = 18;

/// The status where the target has no room for the next step.
const FULL: u8 = 6;

/// The status where ids are damaged.
const DAMAGED: u8 = 12;

/// More calls than are tried.
const MOST: u64 = 10_000;

/// The name that a file has while it is copied.
const WORKING: [u8; 1] = [1];

/// A volume that is copied, the one that its files are copied onto, and the images of both.
#[derive(Clone, Copy)]
pub struct Copying<'i> {
    pub source: Bench,
    pub source_image: &'i [u8],
    pub target: Bench,
    pub target_image: &'i [u8],
}

/// What is to fail in a copy.
#[derive(Clone, Copy)]
pub enum CopyFault {
    /// The read of the source of that number, from 1 on.
    Source { nth: u64 },
    /// What may fail of the target, as in another command.
    Target(Fault),
}

// The file of a name, if there is one.
fn file_named<'f>(files: &'f [Record], name: &[u8]) -> Option<&'f Record> {
    files.iter().find(|file| file.name.as_slice() == name)
}

// Whether a name has what it had.
fn has_first(first: Option<&Record>, now: Option<&Record>) -> bool {
    match (first, now) {
        (None, None) => true,
        (Some(first), Some(now)) => is_same(first, now),
        _ => false,
    }
}

// Whether a file is a copy of a record; meta bytes count where both volumes have as many.
fn is_copy(is_alike: bool, record: &Record, file: &Record) -> bool {
    file.kind == 1
        && file.bytes.as_slice() == record.bytes.as_slice()
        && (!is_alike || file.meta.as_slice() == record.meta.as_slice())
}

// Whether a name has a copy of its record.
fn has_copy(is_alike: bool, record: &Record, now: Option<&Record>) -> bool {
    match now {
        Some(file) => is_copy(is_alike, record, file),
        None => false,
    }
}

// Whether a name has what it may have while a copy is under way, where the working name has the file `under`: without a record what it had at first;
// with one that, or a copy; or nothing, if the working name has the copy.
fn may_have(
    is_alike: bool,
    record: Option<&Record>,
    first: Option<&Record>,
    now: Option<&Record>,
    under: Option<&Record>,
) -> bool {
    if has_first(first, now) {
        return true;
    }
    match (record, now) {
        (Some(record), Some(file)) => is_copy(is_alike, record, file),
        (Some(record), None) => has_copy(is_alike, record, under),
        (None, _) => false,
    }
}

// Whether a name has what it has after a copy.
fn has_now(
    is_alike: bool,
    record: Option<&Record>,
    first: Option<&Record>,
    now: Option<&Record>,
) -> bool {
    match record {
        Some(record) => has_copy(is_alike, record, now),
        None => has_first(first, now),
    }
}

// The files of the source, those that the target had at first, and those that it has now.
#[derive(Clone, Copy)]
struct Names<'n> {
    is_alike: bool,
    source: &'n [Record],
    first: &'n [Record],
    now: &'n [Record],
}

impl Names<'_> {
    // Whether a name has what it may have while a copy is under way, or, where the records `done` are copied, what it has then.
    fn is_kept(&self, done: Option<&[Record]>, name: &[u8]) -> bool {
        let was = file_named(self.first, name);
        let now = file_named(self.now, name);
        match done {
            Some(done) => has_now(self.is_alike, file_named(done, name), was, now),
            None => {
                let record = file_named(self.source, name);
                let under = file_named(self.now, WORKING.as_slice());
                may_have(self.is_alike, record, was, now, under)
            }
        }
    }

    // The same of each name but the working name.
    fn are_kept(&self, done: Option<&[Record]>) -> bool {
        for files in [self.source, self.first, self.now] {
            for file in files {
                let name = file.name.as_slice();
                if name != WORKING.as_slice() && !self.is_kept(done, name) {
                    return false;
                }
            }
        }
        true
    }

    // Whether these records have their copies, all other names have what they had, and no file has the working name.
    fn are_copied(&self, done: &[Record]) -> bool {
        self.are_kept(Some(done)) && file_named(self.now, WORKING.as_slice()).is_none()
    }

    // How many records from the first on have their copies.
    fn front(&self) -> usize {
        let mut count = 0usize;
        for record in self.source {
            let now = file_named(self.now, record.name.as_slice());
            if !has_copy(self.is_alike, record, now) {
                return count;
            }
            count = count.saturating_add(1);
        }
        count
    }

    // Whether a copy stopped at some record: those before it have their copies, and all others what they had.
    fn are_part(&self) -> bool {
        self.are_copied(self.source.get(..self.front()).unwrap_or(&[]))
    }
}

impl<'i> Copying<'i> {
    // The same onto another image.
    fn onto<'n>(&self, target_image: &'n [u8]) -> Copying<'n>
    where
        'i: 'n,
    {
        Copying {
            target_image,
            ..*self
        }
    }

    // The same of another image.
    fn of<'n>(&self, source_image: &'n [u8]) -> Copying<'n>
    where
        'i: 'n,
    {
        Copying {
            source_image,
            ..*self
        }
    }

    /// The words of the copy.
    pub fn words(&self) -> Result<String, Trouble> {
        let source = self.source.words("copy")?;
        let target = self.target.words("")?;
        Ok(format!(in self.source.alloc; "{source}{target}")?)
    }

    /// What the copy of these words does to the target, where that is to fail.
    pub fn give(&self, words: &str, fault: CopyFault) -> Result<Told, Trouble> {
        let alloc = self.target.alloc;
        let words = words_of(alloc, words)?;
        let mut source = self.source.board(self.source_image)?;
        let mut board = self.target.board(self.target_image)?;
        match fault {
            CopyFault::Source { nth } => source.fail_nth(CallKind::Read, nth),
            CopyFault::Target(Fault::Call { kind, nth }) => board.fail_nth(kind, nth),
            CopyFault::Target(Fault::Power { passed, pick }) => board.cut_after(passed, pick),
            CopyFault::Target(_) => {}
        }
        let mut source_loan = self.source.loan()?;
        let mut loan = self.target.loan()?;
        let status = copy_tool(
            &words,
            &mut source,
            &mut board,
            &mut source_loan.bufs(),
            &mut loan.bufs(),
        );
        Ok(Told {
            status,
            said: board.said().to_vec(alloc)?,
            image: board.image().to_vec(alloc)?,
        })
    }

    // What the copy does, where that is to fail.
    fn copy(&self, fault: CopyFault) -> Result<Told, Trouble> {
        self.give(&self.words()?, fault)
    }

    // The names of both volumes, where the target has these files now.
    fn names<'n>(&self, source: &'n [Record], first: &'n [Record], now: &'n [Record]) -> Names<'n> {
        Names {
            is_alike: self.source.g.meta == self.target.g.meta,
            source,
            first,
            now,
        }
    }

    // Whether the target has room for its own files: a copy of no files onto it is done.
    fn has_room(&self) -> Result<bool, Trouble> {
        let empty = self.source.formatted()?;
        let ran = self.of(&empty).copy(CopyFault::Target(Fault::Nothing))?;
        Ok(ran.status != FULL)
    }

    // What a check does on an image that a copy left which was cut or failed, if the files stay, and each name has what it may have.
    fn mended(&self, image: &[u8]) -> Result<Option<Told>, Trouble> {
        let checked = self.target.check(image, Fault::Nothing)?;
        let source = listed(&self.source, self.source_image)?;
        let first = listed(&self.target, self.target_image)?;
        let files = listed(&self.target, &checked.image)?;
        let is_so = (checked.status == 0 || checked.status == DAMAGED)
            && are_same(&listed(&self.target, image)?, &files)
            && self.names(&source, &first, &files).are_kept(None);
        if is_so { Ok(Some(checked)) } else { Ok(None) }
    }

    // Whether the copy onto an image ends with that status, and with the files of an uncut one; a copy that is done then changes nothing.
    fn ends(&self, status: u8, image: &[u8]) -> Result<bool, Trouble> {
        let again = self.onto(image).copy(CopyFault::Target(Fault::Nothing))?;
        let source = listed(&self.source, self.source_image)?;
        let first = listed(&self.target, self.target_image)?;
        let last = listed(&self.target, &again.image)?;
        let names = self.names(&source, &first, &last);
        if again.status != status {
            return Ok(false);
        }
        if status != FULL {
            return Ok(
                names.are_copied(&source)
                    && self
                        .onto(&again.image)
                        .changes_nothing(status, source.len())?,
            );
        }
        if self.has_room()? {
            return Ok(names.are_part());
        }
        Ok(are_same(&first, &last))
    }

    // Whether the copy onto a target with so many copies asks for no program and no erase: the first one would fail.
    fn changes_nothing(&self, status: u8, count: usize) -> Result<bool, Trouble> {
        let line = format!(in self.target.alloc; "copied 0 kept {count}\n")?;
        for kind in [CallKind::Program, CallKind::Erase] {
            let ran = self.copy(CopyFault::Target(Fault::Call { kind, nth: 1 }))?;
            let is_said = ran.said.as_slice().starts_with(line.as_bytes());
            if ran.status != status || !is_said || ran.image.as_slice() != self.target_image {
                return Ok(false);
            }
        }
        Ok(true)
    }

    // Whether each name has what it may have of a copy that was cut or failed, and then of one that is cut there, each behind a check; and the copy
    // then ends as an uncut one.
    fn recovers(&self, whole: &Told, ran: &Told, there: Fault) -> Result<bool, Trouble> {
        let Some(once) = self.mended(&ran.image)? else {
            return Ok(false);
        };
        let second = self.onto(&once.image);
        let cut = second.copy(CopyFault::Target(there))?;
        if cut.status != DEVICE_FAULT && cut.status != whole.status {
            return Ok(false);
        }
        match second.mended(&cut.image)? {
            Some(twice) => self.ends(whole.status, &twice.image),
            None => Ok(false),
        }
    }
}

// Whether a copy did all that another one did.
fn did_all(whole: &Told, ran: &Told) -> bool {
    ran.status == whole.status
        && ran.said.as_slice() == whole.said.as_slice()
        && ran.image.as_slice() == whole.image.as_slice()
}

// Where the second copy is cut, after a first one that was cut or failed behind so many calls: there, sooner, and soon after its begin.
fn cut_again(passed: u64, pick: u64) -> Fault {
    let there = match pick {
        0 => passed,
        1 => passed / 2,
        2 => passed / 3,
        3 => passed % 7,
        _ => passed % 29,
    };
    Fault::Power {
        passed: there,
        pick,
    }
}

/// Cuts a copy inside each program, erase and reply of the target, done in five ways, and the next one once too. Each name is to have what it may
/// have, and the copy, given again, to come to the end of an uncut one.
pub fn cut_copies(copying: &Copying<'_>) -> Result<Swept, Trouble> {
    let whole = copying.copy(CopyFault::Target(Fault::Nothing))?;
    for passed in 0..MOST {
        for pick in 0..5 {
            let ran = copying.copy(CopyFault::Target(Fault::Power { passed, pick }))?;
            if did_all(&whole, &ran) {
                return Ok(Swept::Whole(passed));
            }
            if ran.status != DEVICE_FAULT
                || !copying.recovers(&whole, &ran, cut_again(passed, pick))?
            {
                return Ok(Swept::Cut { passed, pick });
            }
        }
    }
    Ok(Swept::Whole(MOST))
}

// Lets a call fail in turn, from the first on, by which the copy is to end with that status.
fn fail_each(copying: &Copying<'_>, status: u8, kind: Option<CallKind>) -> Result<Swept, Trouble> {
    let whole = copying.copy(CopyFault::Target(Fault::Nothing))?;
    for passed in 0..MOST {
        let nth = passed.saturating_add(1);
        let ran = copying.copy(match kind {
            Some(kind) => CopyFault::Target(Fault::Call { kind, nth }),
            None => CopyFault::Source { nth },
        })?;
        if did_all(&whole, &ran) {
            return Ok(Swept::Whole(passed));
        }
        if ran.status != status || !copying.recovers(&whole, &ran, cut_again(passed, passed % 5))? {
            return Ok(Swept::Failed { nth });
        }
    }
    Ok(Swept::Whole(MOST))
}

/// The same, where each call of a kind of the target fails in turn.
pub fn fail_copies(copying: &Copying<'_>, kind: CallKind) -> Result<Swept, Trouble> {
    fail_each(copying, DEVICE_FAULT, Some(kind))
}

/// The same, where each read of the source fails in turn: the copy is to end with the status of that.
pub fn fail_sources(copying: &Copying<'_>) -> Result<Swept, Trouble> {
    fail_each(copying, SOURCE_FAULT, None)
}
