//! A folder in memory.
ghost use Rattle.std.specs.Prelude.{◌≡◌, ◌^◌, ◌<◌, length};
ghost use Rattle.folder_core.specs.Files.{entries_of};
ghost use Rattle.folder_core.specs.Mem.{files_of, few_entries};

use crate::file::{MemFile, bytes_of, name_of, push_file, put_in};
use crate::{Folder, FolderState};
use nor_core::{Failed, MemErr};
use std::alloc::Global;

/// A folder in memory, which tells its bytes. A call fails where that was asked for; a `put` fails too where there is no
/// memory for it, or where it would make file number 2^32. No other call takes memory.
#[derive(Drop)]
pub struct MemFolder {
    alloc: Global,
    files: Vec<MemFile>,
    faults: u64,
    failing: u64,
    ghost few: { length files.items < 2 ^ 32 },
}

impl MemFolder {
    ghost use Rattle.folder_core.specs.contracts.mem_folder.MemFolderFolderState.TheImpl.{ghosts as mem};
    ghost use Rattle.std.specs.Prelude.{◌≡◌, ◌+◌, ◌-◌, ◌^◌, ◌<◌, ◌≤◌, ◌++◌, ◌↔◌, [], ◌∷◌, length, true, IsTrue, IsFalse, OnOk, OnErr};
    ghost use Rattle.nor_core.specs.Count.{counted};
    ghost use Rattle.folder_core.specs.Puts.{Kept};

    /// A folder with no files, none of whose calls is to fail.
    pub fn new(alloc: Global) -> MemFolder
        ensures files { mem.files result ≡ [] }
        ensures faults { mem.faults result ≡ 0 }
        ensures failing { result.failing ≡ 0 }
    {
        MemFolder {
            alloc,
            files: Vec::new(alloc),
            faults: 0,
            failing: 0,
        }
    }

    /// Adds a file as the last one, also under a name that is there. There are fewer than 2^32 - 1 files before. Without
    /// memory for it the folder stays as it was.
    pub fn add(&mut self, name: &[u8], bytes: &[u8]) -> Result<(), MemErr>
        requires { length (mem.files self.old) < 2 ^ 32 - 1 }
        ensures done { OnOk result (mem.files self.new ≡ mem.files self.old ++
            record { name = name.now; bytes = bytes.now } ∷ []) }
        ensures same { OnErr result (Kept mem self.old self.new) }
        ensures faults { mem.faults self.new ≡ mem.faults self.old }
        ensures failing { self.new.failing ≡ self.old.failing }
    {
        match push_file(self.alloc, &mut self.files, name, bytes) {
            Ok(()) => Ok(()),
            Err(_) => Err(MemErr::Memory),
        }
    }

    /// The nth call of its five from now on, counted from 1 and over all kinds, fails and changes nothing. At most one
    /// call is to fail: the last asked counts, and 0 asks for none.
    pub fn fail_nth(&mut self, nth: u64)
        ensures kept { Kept mem self.old self.new }
        ensures faults { mem.faults self.new ≡ mem.faults self.old }
        ensures failing { self.new.failing ≡ nth }
    {
        self.failing = nth;
    }

    // Whether the call that is made now is to fail, which then counts as a fault.
    fn fails(&mut self) -> bool
        ensures asked { (result ≡ true) ↔ (self.old.failing ≡ 1) }
        ensures files { self.new.files ≡ self.old.files }
        ensures alloc { self.new.alloc ≡ self.old.alloc }
        ensures fault { IsTrue result → self.new.faults ≡ counted self.old.faults }
        ensures no_fault { IsFalse result → self.new.faults ≡ self.old.faults }
        ensures rises { self.old.faults ≤ self.new.faults }
        ensures failing { self.new.failing ≡ self.old.failing - 1 }
    {
        let fails = self.failing == 1;
        self.failing = self.failing.saturating_sub(1);
        if fails {
            self.faults = self.faults.saturating_add(1);
        }
        fails
    }
}

impl FolderState for MemFolder {
    ghost tells = { λ _. Unit {0} };

    ghost entries = { λ f. entries_of (files_of f.files.items) };

    ghost files = { λ f. files_of f.files.items };

    ghost faults = { λ f. f.faults };
}

impl Folder for MemFolder {
    ghost use Rattle.folder_core.specs.contracts.mem_folder.MemFolderFolderState.TheImpl.{ghosts as mem};
    ghost use Rattle.std.specs.Prelude.{◌≡◌, ◌+◌, ◌-◌, ◌<◌, ◌≤◌, ◌↔◌, min, drop, length, take, slice_range, refl, IsFalse, IsErr, OnOk, OnErr, IfOk};
    ghost use Rattle.nor_core.specs.Count.{counted, Rose};
    ghost use Rattle.folder_core.specs.Files.{name_at, size_at, bytes_at, Named};
    ghost use Rattle.folder_core.specs.Puts.{Kept, Puts, HalfPuts};

    fn count(&mut self) -> Result<u32, Failed>
        ensures count { IfOk result (λ n. n ≡ length (mem.entries self.old)) }
        ensures cause { OnErr result (Rose (mem.faults self.old) (mem.faults self.new)) }
        ensures kept { Kept mem self.old self.new }
        ensures fails { IsErr result ↔ (self.old.failing ≡ 1) }
        ensures counts_down { self.new.failing ≡ self.old.failing - 1 }
        ensures no_fault { OnOk result (self.new.faults ≡ self.old.faults) }
        ensures one_fault { OnErr result (self.new.faults ≡ counted self.old.faults) }
    {
        if self.fails() {
            return Err(Failed);
        }
        Ok(self.files.len() as u32)
    }

    fn name(&mut self, i: u32, into: &mut [u8]) -> Result<usize, Failed>
        requires inside { i < length (mem.entries self.old) }
        ensures length { IfOk result (λ n. n ≡ length (name_at (mem.entries self.old) i)) }
        ensures front { IfOk result (λ n. take (min n (length into.old)) into.new ≡
            take (length into.old) (name_at (mem.entries self.old) i)) }
        ensures cause { OnErr result (Rose (mem.faults self.old) (mem.faults self.new)) }
        ensures kept { Kept mem self.old self.new }
        ensures rest { IfOk result (λ n. drop n into.new ≡ drop n into.old) }
        ensures fails { IsErr result ↔ (self.old.failing ≡ 1) }
        ensures counts_down { self.new.failing ≡ self.old.failing - 1 }
        ensures no_fault { OnOk result (self.new.faults ≡ self.old.faults) }
        ensures one_fault { OnErr result (self.new.faults ≡ counted self.old.faults) }
    {
        if self.fails() {
            return Err(Failed);
        }
        let name = name_of(&self.files, i as usize);
        let n = name.len().min(into.len());
        into[..n].copy_from_slice(&name[..n]);
        Ok(name.len())
    }

    fn size(&mut self, i: u32) -> Result<u64, Failed>
        requires inside { i < length (mem.entries self.old) }
        ensures size { IfOk result (λ n. n ≡ size_at (mem.entries self.old) i) }
        ensures cause { OnErr result (Rose (mem.faults self.old) (mem.faults self.new)) }
        ensures kept { Kept mem self.old self.new }
        ensures fails { IsErr result ↔ (self.old.failing ≡ 1) }
        ensures counts_down { self.new.failing ≡ self.old.failing - 1 }
        ensures no_fault { OnOk result (self.new.faults ≡ self.old.faults) }
        ensures one_fault { OnErr result (self.new.faults ≡ counted self.old.faults) }
    {
        if self.fails() {
            return Err(Failed);
        }
        Ok(bytes_of(&self.files, i as usize).len() as u64)
    }

    fn read(&mut self, i: u32, at: u64, into: &mut [u8]) -> Result<(), Failed>
        requires inside { i < length (mem.entries self.old) }
        requires within { at + length into.old ≤ size_at (mem.entries self.old) i }
        ensures read { mem.tells self.old → OnOk result (into.new ≡
            slice_range (bytes_at (mem.files self.old) i) at (at + length into.old)) }
        ensures cause { OnErr result (Rose (mem.faults self.old) (mem.faults self.new)) }
        ensures kept { Kept mem self.old self.new }
        ensures fails { IsErr result ↔ (self.old.failing ≡ 1) }
        ensures counts_down { self.new.failing ≡ self.old.failing - 1 }
        ensures no_fault { OnOk result (self.new.faults ≡ self.old.faults) }
        ensures one_fault { OnErr result (self.new.faults ≡ counted self.old.faults) }
    {
        if self.fails() {
            return Err(Failed);
        }
        let start = at as usize;
        let bytes = bytes_of(&self.files, i as usize);
        into.copy_from_slice(&bytes[start..start + into.len()]);
        Ok(())
    }

    fn put(&mut self, name: &[u8], first: bool, piece: &[u8]) -> Result<(), Failed>
        requires there { IsFalse first → Named name.now (mem.entries self.old) }
        ensures done { OnOk result (Puts mem first name.now piece.now self.old self.new) }
        ensures half { OnErr result (HalfPuts mem first name.now piece.now self.old self.new) }
        ensures there { OnOk result (Named name.now (mem.entries self.new)) }
        ensures cause { OnErr result (Rose (mem.faults self.old) (mem.faults self.new)) }
        ensures asked { self.old.failing ≡ 1 → IsErr result × Kept mem self.old self.new }
        ensures counts_down { self.new.failing ≡ self.old.failing - 1 }
        ensures no_fault { OnOk result (self.new.faults ≡ self.old.faults) }
        ensures one_fault { OnErr result (self.new.faults ≡ counted self.old.faults) }
    {
        if self.fails() {
            return Err(Failed);
        }
        let answer = put_in(self.alloc, &mut self.files, name, first, piece);
        if answer.is_err() {
            self.faults = self.faults.saturating_add(1);
        }
        answer
    }

    ghost listed = { λ d tells. refl };

    ghost few = { λ d. few_entries d.files.items d.few };
}
