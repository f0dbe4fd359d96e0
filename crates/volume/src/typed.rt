ghost use Rattle.std.specs.Prelude.{◌≡◌, length, min};
ghost use Rattle.table_model.specs.Reply.{Fine, Tells as Number, Shows, Counts};
ghost use Rattle.table_model.specs.Ask.{Creates, Opens, Reads, Writes, Seeks, Truncates, Flushes, Closes, Removes, RemovesOpen, Renames, Stats, StatsOpen};
ghost use Rattle.table_model.specs.Ask.{NextAbove, Informs, Collects, SetsMeta, SetsMetaOpen};
ghost use Rattle.fd_table.specs.Slots.{descriptors, open_at};
ghost use Rattle.file_calls.specs.Replies.{shown_or_end};
ghost use Rattle.volume.specs.Replies.{told, as_read, offset_of};
ghost use Rattle.volume.specs.Calls.{Calls};

use crate::{Told, Volume};
use file_calls::opened;
use nor_core::Nor;
use table_model::{Call, FsErr, Info, Stat, Whence};

impl<'b, N: Nor> Volume<'b, N> {
    /// Makes an empty file of type 1 under the least unused id from 1, with meta bytes of 0xFF. Refused, in
    /// this order: `Failed` (also where the volume wasn't checked), `BadName`, `NameTooLong`, `ConflictingName`,
    /// `Tight`, `Full`. Garbage is collected where no page is free for it.
    pub fn create(&mut self, name: &[u8]) -> Result<(), FsErr>
        ensures { Calls (Creates name.now) self.old self.new (told (λ done. Fine) result) }
    {
        match self.answer(&Call::Create { name }, &mut []) {
            Told::Done => Ok(()),
            Told::Refusal(why) => Err(why),
            _ => unreachable!(),
        }
    }

    /// Opens a file under the lowest closed descriptor, whose number from 1 it answers, at offset 0. The flags are SPIFFS's own:
    /// APPEND 1, TRUNC 2, CREAT 4, RDONLY 8, WRONLY 16, DIRECT 32, EXCL 64. A missing file is made where CREAT is set, as `create`
    /// makes one, and one that is there becomes empty where TRUNC is set, as `truncate` cuts one. Refused, in this order: `Failed` (also
    /// where the volume wasn't checked), `BadName`, `NameTooLong`, `BadFlags` (a bit above 64, or TRUNC without WRONLY),
    /// `OutOfDescriptors`, `FileExists` (it is there, and CREAT and EXCL are set), `NotFound` (it isn't, and CREAT isn't set), and where
    /// it is to be made or to become empty `Tight`, `Full`.
    pub fn open_file(&mut self, name: &[u8], flags: u32) -> Result<u16, FsErr>
        ensures { Calls (Opens name.now flags) self.old self.new (told (λ fd. Number fd) result) }
    {
        match self.answer(&Call::OpenFile { name, flags }, &mut []) {
            Told::Number(fd) => Ok(fd as u16),
            Told::Refusal(why) => Err(why),
            _ => unreachable!(),
        }
    }

    /// Reads from a descriptor's offset, as many bytes as there are and fit, which may be none, and answers their number; the offset
    /// moves behind them. No more than 4,294,967,295 bytes are asked for. Refused, in this order: `Failed` (also where the volume
    /// wasn't checked), `BadDescriptor`, `NotReadable`. After `DeviceFault` or `Damaged` the offset stands, and `into` holds anything.
    pub fn read(&mut self, fd: u16, into: &mut [u8]) -> Result<u32, FsErr>
        ensures { Calls (Reads fd (min (length into.old) 4294967295)) self.old self.new (as_read result into.new) }
    {
        let count = into.len().min(0xFFFF_FFFF) as u32;
        match self.answer(&Call::Read { fd, count }, into) {
            Told::Bytes(count) => Ok(count),
            Told::Refusal(why) => Err(why),
            _ => unreachable!(),
        }
    }

    /// Writes bytes at a descriptor's offset, or with APPEND at the file's end, and answers their number; the offset moves behind them. All
    /// are written, or none: `Full` is told before anything is. Through a descriptor that isn't DIRECT bytes that lie in one data page wait
    /// in the write window until another call. Refused, in this order: `Failed` (also where the volume wasn't checked), `BadDescriptor`,
    /// `NotWritable`, `Tight`, `Full`. After `DeviceFault` or `Damaged` the offset stands.
    pub fn write(&mut self, fd: u16, from: &[u8]) -> Result<u32, FsErr>
        ensures { Calls (Writes fd from.now) self.old self.new (told (λ n. Number n) result) }
    {
        match self.answer(&Call::Write { fd, bytes: from }, &mut []) {
            Told::Number(count) => Ok(count),
            Told::Refusal(why) => Err(why),
            _ => unreachable!(),
        }
    }

    /// Moves a descriptor's offset, and answers the new one, in bytes from 0 to the file's size. Refused, in this order: `Failed` (also
    /// where the volume wasn't checked), `BadDescriptor`, `SeekBounds`.
    pub fn seek(&mut self, fd: u16, offset: i64, from: Whence) -> Result<u32, FsErr>
        ensures { Calls (Seeks fd offset from) self.old self.new (told (λ at. Number at) result) }
    {
        match self.answer(&Call::Seek { fd, offset, from }, &mut []) {
            Told::Number(at) => Ok(at),
            Told::Refusal(why) => Err(why),
            _ => unreachable!(),
        }
    }

    /// A descriptor's offset in bytes. It asks nothing of the device, and answers on a volume that has failed too, by the descriptors
    /// as the call that failed found them. Refused is `BadDescriptor` alone.
    pub fn tell(&self, fd: u16) -> Result<u32, FsErr>
        ensures { result ≡ offset_of (open_at (descriptors self.now.slots.now) fd) }
    {
        Ok(opened(self.slots, fd)?.offset)
    }

    /// Cuts the file of a descriptor to a size in bytes, which is no larger than the one it has; descriptors beyond its end stand at it.
    /// To its own size nothing is done. Refused, in this order: `Failed` (also where the volume wasn't checked), `BadDescriptor`,
    /// `NotWritable`, `SeekBounds` (it is shorter), `Tight`, `Full`. Garbage is collected where no page is free for the new header page;
    /// where the table has no room already that may be `Tight` though two blocks are free, and nothing is lost.
    pub fn truncate(&mut self, fd: u16, size: u32) -> Result<(), FsErr>
        ensures { Calls (Truncates fd size) self.old self.new (told (λ done. Fine) result) }
    {
        match self.answer(&Call::Truncate { fd, size }, &mut []) {
            Told::Done => Ok(()),
            Told::Refusal(why) => Err(why),
            _ => unreachable!(),
        }
    }

    /// Puts what was written through a descriptor onto the chip. Refused, in this order: `Failed`
    /// (also where the volume wasn't checked), `BadDescriptor`.
    pub fn flush(&mut self, fd: u16) -> Result<(), FsErr>
        ensures { Calls (Flushes fd) self.old self.new (told (λ done. Fine) result) }
    {
        match self.answer(&Call::Flush { fd }, &mut []) {
            Told::Done => Ok(()),
            Told::Refusal(why) => Err(why),
            _ => unreachable!(),
        }
    }

    /// Closes a descriptor; its number is free again. Refused, in this order: `Failed` (also where the volume wasn't checked),
    /// `BadDescriptor`.
    pub fn close(&mut self, fd: u16) -> Result<(), FsErr>
        ensures { Calls (Closes fd) self.old self.new (told (λ done. Fine) result) }
    {
        match self.answer(&Call::Close { fd }, &mut []) {
            Told::Done => Ok(()),
            Told::Refusal(why) => Err(why),
            _ => unreachable!(),
        }
    }

    /// Removes the file of a name, kills its pages, and closes every descriptor on it; it needs no page. Refused, in this order:
    /// `Failed` (also where the volume wasn't checked), `BadName`, `NameTooLong`, `NotFound`.
    pub fn remove(&mut self, name: &[u8]) -> Result<(), FsErr>
        ensures { Calls (Removes name.now) self.old self.new (told (λ done. Fine) result) }
    {
        match self.answer(&Call::Remove { name }, &mut []) {
            Told::Done => Ok(()),
            Told::Refusal(why) => Err(why),
            _ => unreachable!(),
        }
    }

    /// Removes the file of a descriptor, as `remove` does by its name. Refused, in this order: `Failed` (also where the volume wasn't
    /// checked), `BadDescriptor`.
    pub fn fremove(&mut self, fd: u16) -> Result<(), FsErr>
        ensures { Calls (RemovesOpen fd) self.old self.new (told (λ done. Fine) result) }
    {
        match self.answer(&Call::FRemove { fd }, &mut []) {
            Told::Done => Ok(()),
            Told::Refusal(why) => Err(why),
            _ => unreachable!(),
        }
    }

    /// Gives the file of a name another one; its id, bytes and descriptors stay. The name that it has conflicts too. Refused, in this
    /// order: `Failed` (also where the volume wasn't checked), `BadName` (either of them), `NameTooLong` (either), `NotFound`,
    /// `ConflictingName`, `Tight`, `Full`. Garbage is collected where no page is free for it.
    pub fn rename(&mut self, old_name: &[u8], new_name: &[u8]) -> Result<(), FsErr>
        ensures { Calls (Renames old_name.now new_name.now) self.old self.new (told (λ done. Fine) result) }
    {
        match self.answer(&Call::Rename { old_name, new_name }, &mut []) {
            Told::Done => Ok(()),
            Told::Refusal(why) => Err(why),
            _ => unreachable!(),
        }
    }

    /// Gives the file of a name other meta bytes, as many as the geometry has. Refused, in this order: `Failed` (also where the
    /// volume wasn't checked), `BadName`, `NameTooLong`, `BadFlags` (another number of bytes), `NotFound`, `Tight`, `Full`.
    /// Garbage is collected where no page is free for it.
    pub fn update_meta(&mut self, name: &[u8], meta: &[u8]) -> Result<(), FsErr>
        ensures { Calls (SetsMeta name.now meta.now) self.old self.new (told (λ done. Fine) result) }
    {
        match self.answer(&Call::SetMeta { name, meta }, &mut []) {
            Told::Done => Ok(()),
            Told::Refusal(why) => Err(why),
            _ => unreachable!(),
        }
    }

    /// Gives the file of a descriptor other meta bytes. Refused, in this order: `Failed` (also where the volume wasn't checked),
    /// `BadFlags` (another number of bytes), `BadDescriptor`, `NotWritable`, `Tight`, `Full`. Garbage is collected where
    /// no page is free for it.
    pub fn fupdate_meta(&mut self, fd: u16, meta: &[u8]) -> Result<(), FsErr>
        ensures { Calls (SetsMetaOpen fd meta.now) self.old self.new (told (λ done. Fine) result) }
    {
        match self.answer(&Call::FSetMeta { fd, meta }, &mut []) {
            Told::Done => Ok(()),
            Told::Refusal(why) => Err(why),
            _ => unreachable!(),
        }
    }

    /// The record of the file of a name. Refused, in this order: `Failed` (also where the volume wasn't checked),
    /// `BadName`, `NameTooLong`, `NotFound`.
    pub fn stat(&mut self, name: &[u8]) -> Result<Stat, FsErr>
        ensures { Calls (Stats name.now) self.old self.new (told (λ stat. Shows stat) result) }
    {
        match self.answer(&Call::StatName { name }, &mut []) {
            Told::File(stat) => Ok(stat),
            Told::Refusal(why) => Err(why),
            _ => unreachable!(),
        }
    }

    /// The record of a descriptor's file. Refused, in this order: `Failed` (also where the volume wasn't checked),
    /// `BadDescriptor`.
    pub fn fstat(&mut self, fd: u16) -> Result<Stat, FsErr>
        ensures { Calls (StatsOpen fd) self.old self.new (told (λ stat. Shows stat) result) }
    {
        match self.answer(&Call::FStat { fd }, &mut []) {
            Told::File(stat) => Ok(stat),
            Told::Refusal(why) => Err(why),
            _ => unreachable!(),
        }
    }

    /// The record of the file of the least id above one, or none. Refused is `Failed`, also where the volume wasn't
    /// checked.
    pub fn next(&mut self, after: u16) -> Result<Option<Stat>, FsErr>
        ensures { Calls (NextAbove after) self.old self.new (told shown_or_end result) }
    {
        match self.answer(&Call::Next { after }, &mut []) {
            Told::File(stat) => Ok(Some(stat)),
            Told::NoMore => Ok(None),
            Told::Refusal(why) => Err(why),
            _ => unreachable!(),
        }
    }

    /// How full the volume is. Refused is `Failed`, also where the volume wasn't checked.
    pub fn info(&mut self) -> Result<Info, FsErr>
        ensures { Calls Informs self.old self.new (told (λ info. Counts info) result) }
    {
        match self.answer(&Call::GetInfo, &mut []) {
            Told::Room(info) => Ok(info),
            Told::Refusal(why) => Err(why),
            _ => unreachable!(),
        }
    }

    /// Collects garbage: cleans blocks until none is worth cleaning. Refused, in this order: `Failed` (also where the volume wasn't
    /// checked), and `Tight` where fewer than two blocks were free and collection is stuck before that; then blocks may have been cleaned.
    pub fn gc(&mut self) -> Result<(), FsErr>
        ensures { Calls Collects self.old self.new (told (λ done. Fine) result) }
    {
        match self.answer(&Call::Gc, &mut []) {
            Told::Done => Ok(()),
            Told::Refusal(why) => Err(why),
            _ => unreachable!(),
        }
    }
}
