//! A folder of the host.
ghost use Rattle.std.specs.Prelude.{◌≡◌, ◌^◌, ◌<◌, [], length};
ghost use Rattle.host_edge.specs.Host.{host_entries, few_entries};

use crate::Trouble;
use crate::bad_name::{BadName, first_bad};
use crate::host_file::{HostFile, Listed, PassedOver, list, name_of, read_at, size_of};
use crate::opening::{Bounds, Current, Place};
use crate::put::{path_for, put_in};
use crate::trouble::note;
use folder_core::{Folder, FolderState};
use nor_core::{Failed, MemErr};
use std::alloc::{AllocError, Global};
use std::fs::Files;
use std::io;
use std::io::{Error, ErrorKind};

/// The plain files of a folder of the host, in the order of their names' bytes; a new file is the last. Links and all
/// else that isn't a plain file are passed over, and are never written. It tells no bytes, but names and sizes: those
/// that the files had when it was opened, and that its own calls gave them since. A file is opened once for all of its bytes, and looked at
/// then: it has to be the plain file that stands at its path, none of the chips, and to be written it must have that one name alone.
#[derive(Drop)]
pub struct StdFolder<R: Files + Drop> {
    rt: R,
    alloc: Global,
    path: String,
    files: Vec<HostFile>,
    passed_over: Vec<PassedOver>,
    bounds: Bounds,
    // The path of a file that is a chip.
    chip_path: Option<String>,
    // The file that was read or written last.
    current: Option<Current<R::File>>,
    is_listed: bool,
    faults: u64,
    trouble: Option<Trouble>,
    // The path on which it failed first.
    failed_path: String,
    ghost few: { length files.items < 2 ^ 32 },
}

// What is to be known of a folder to open its files.
fn place_of<'p, R: Files>(
    rt: &'p R,
    alloc: Global,
    path: &'p str,
    bounds: &'p Bounds,
) -> Place<'p, R> {
    Place {
        rt,
        alloc,
        path,
        bounds,
    }
}

// Keeps what failed first, and on which path; that is empty where there is no memory for it.
fn note_at(
    first: &mut Option<Trouble>,
    first_path: &mut String,
    alloc: Global,
    path: Result<String, AllocError>,
    trouble: Trouble,
) {
    if first.is_none() {
        *first_path = path.unwrap_or(String::new(alloc));
    }
    note(first, trouble);
}

impl<R: Files + Drop> StdFolder<R> {
    /// The folder of that path. `MemErr::Memory` comes for want of memory alone: a folder that can't be listed, or that
    /// has 2^32 files or more, makes every later call fail.
    pub fn new(rt: R, alloc: Global, path: &str) -> Result<StdFolder<R>, MemErr> {
        StdFolder::within(rt, alloc, path, Bounds::none(alloc))
    }

    /// The folder of that path, as `new` has it, whose files keep within these bounds.
    pub fn within(
        rt: R,
        alloc: Global,
        path: &str,
        bounds: Bounds,
    ) -> Result<StdFolder<R>, MemErr> {
        let mut folder = StdFolder::unlisted(rt, alloc);
        folder.bounds = bounds;
        let listed = folder.list(path);
        match listed {
            Ok(()) => Ok(folder),
            Err(why) if why.kind() == ErrorKind::OutOfMemory => Err(MemErr::Memory),
            Err(why) => {
                folder.trouble = Some(Trouble::List(why));
                Ok(folder)
            }
        }
    }

    /// Makes every later call fail if one of the files is a chip: where all files are read and the chip is written.
    pub fn refuse_chips(&mut self) {
        if let Some(path) = self.chip_path.take() {
            let why = "it is the image that is written: keep the image outside of the folder";
            let trouble = Trouble::Get(Error::new(ErrorKind::InvalidInput, why));
            note_at(
                &mut self.trouble,
                &mut self.failed_path,
                self.alloc,
                Ok(path),
                trouble,
            );
            self.is_listed = false;
        }
    }

    /// No folder: every call fails. It stands where a command asks for none.
    pub fn unlisted(rt: R, alloc: Global) -> StdFolder<R> {
        StdFolder {
            rt,
            alloc,
            path: String::new(alloc),
            files: Vec::new(alloc),
            passed_over: Vec::new(alloc),
            bounds: Bounds::none(alloc),
            chip_path: None,
            current: None,
            is_listed: false,
            faults: 0,
            trouble: None,
            failed_path: String::new(alloc),
        }
    }

    /// What failed first, if anything did.
    pub fn trouble(&self) -> Option<&Trouble> {
        self.trouble.as_ref()
    }

    /// The path on which it failed first, as the host opens it: that of a file, or of the folder where that can't be listed.
    pub fn failed_path(&self) -> &str {
        if self.failed_path.is_empty() {
            self.path.as_str()
        } else {
            self.failed_path.as_str()
        }
    }

    /// What stands in the folder and is no plain file, in the order of the paths' bytes.
    pub fn passed_over(&self) -> &[PassedOver] {
        self.passed_over.as_slice()
    }

    /// The first file whose name no file of a volume can have, or an earlier file has, with what is wrong with it.
    pub fn bad_name(&self) -> Option<BadName<'_>> {
        first_bad(self.files.as_slice())
    }

    // Lists the folder of that path.
    fn list(&mut self, path: &str) -> io::Result<()> {
        self.path = String::from_str(self.alloc, path)?;
        let place = place_of(&self.rt, self.alloc, path, &self.bounds);
        let Listed {
            files,
            passed_over,
            chip,
        } = list(&place)?;
        self.files = files;
        self.passed_over = passed_over;
        self.chip_path = chip;
        self.is_listed = true;
        Ok(())
    }
}

impl<R: Files + Drop> FolderState for StdFolder<R> {
    ghost tells = { λ _. ⊥ };

    ghost entries = { λ f. host_entries f.files.items };

    ghost files = { λ _. [] };

    ghost faults = { λ f. f.faults };
}

impl<R: Files + Drop> Folder for StdFolder<R> {
    fn count(&mut self) -> Result<u32, Failed> {
        if self.is_listed {
            return Ok(self.files.len() as u32);
        }
        self.faults = self.faults.saturating_add(1);
        Err(Failed)
    }

    fn name(&mut self, i: u32, into: &mut [u8]) -> Result<usize, Failed> {
        let name = name_of(&self.files, i as usize);
        let n = name.len().min(into.len());
        into[..n].copy_from_slice(&name[..n]);
        Ok(name.len())
    }

    fn size(&mut self, i: u32) -> Result<u64, Failed> {
        Ok(size_of(&self.files, i as usize))
    }

    fn read(&mut self, i: u32, at: u64, into: &mut [u8]) -> Result<(), Failed> {
        let i = i as usize;
        let place = place_of(&self.rt, self.alloc, self.path.as_str(), &self.bounds);
        let path = self.files[i].path.as_str();
        match read_at(&place, &mut self.current, i, path, at, into) {
            Ok(()) => Ok(()),
            Err(why) => {
                note_at(
                    &mut self.trouble,
                    &mut self.failed_path,
                    self.alloc,
                    String::from_str(self.alloc, path),
                    Trouble::Get(why),
                );
                self.faults = self.faults.saturating_add(1);
                Err(Failed)
            }
        }
    }

    fn put(&mut self, name: &[u8], first: bool, piece: &[u8]) -> Result<(), Failed> {
        if !self.is_listed {
            self.faults = self.faults.saturating_add(1);
            return Err(Failed);
        }
        let place = place_of(&self.rt, self.alloc, self.path.as_str(), &self.bounds);
        match put_in(
            &place,
            &mut self.current,
            &mut self.files,
            name,
            first,
            piece,
        ) {
            Ok(()) => Ok(()),
            Err(why) => {
                note_at(
                    &mut self.trouble,
                    &mut self.failed_path,
                    self.alloc,
                    path_for(&place, &self.files, name),
                    Trouble::Put(why),
                );
                self.faults = self.faults.saturating_add(1);
                Err(Failed)
            }
        }
    }

    ghost listed = { λ d tells. absurd tells };

    ghost few = { λ d. few_entries d.files.items d.few };
}
