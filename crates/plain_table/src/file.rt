ghost use Rattle.std.specs.Prelude.{◌≡◌, IfOk};
ghost use Rattle.plain_table.specs.Seen.{file};

use std::alloc::{AllocError, Global};

/// A file of the flat table, with bytes of its own.
#[derive(Debug, Drop)]
pub struct PlainFile {
    /// The object id, from 1.
    pub id: u16,
    /// The name, of 1 to 31 bytes.
    pub name: Vec<u8>,
    /// The type number; 1 is a file.
    pub kind: u8,
    /// The meta bytes, as many as the geometry has.
    pub meta: Vec<u8>,
    /// The file's bytes.
    pub bytes: Vec<u8>,
}

impl PlainFile {
    // A file of this one's id and type, with these name, meta and bytes.
    fn with(
        &self,
        alloc: Global,
        name: &[u8],
        meta: &[u8],
        bytes: &[u8],
    ) -> Result<PlainFile, AllocError>
        ensures { IfOk result (λ f. file f ≡ record { id = self.now.id; name = name.now; kind = self.now.kind; meta = meta.now; bytes = bytes.now }) }
    {
        Ok(PlainFile {
            id: self.id,
            name: Vec::from_slice(alloc, name)?,
            kind: self.kind,
            meta: Vec::from_slice(alloc, meta)?,
            bytes: Vec::from_slice(alloc, bytes)?,
        })
    }

    /// The same file with memory of its own. Wants memory for it.
    pub fn copied(&self, alloc: Global) -> Result<PlainFile, AllocError>
        ensures { IfOk result (λ f. file f ≡ file self.now) }
    {
        self.with(
            alloc,
            self.name.as_slice(),
            self.meta.as_slice(),
            self.bytes.as_slice(),
        )
    }

    // The file under another name.
    pub(crate) fn named(&self, alloc: Global, name: &[u8]) -> Result<PlainFile, AllocError>
        ensures { IfOk result (λ f. file f ≡ record (file self.now) { name = name.now }) }
    {
        self.with(alloc, name, self.meta.as_slice(), self.bytes.as_slice())
    }

    // The file with other meta bytes.
    pub(crate) fn with_meta(&self, alloc: Global, meta: &[u8]) -> Result<PlainFile, AllocError>
        ensures { IfOk result (λ f. file f ≡ record (file self.now) { meta = meta.now }) }
    {
        self.with(alloc, self.name.as_slice(), meta, self.bytes.as_slice())
    }

    // The file with other bytes.
    pub(crate) fn with_bytes(&self, alloc: Global, bytes: &[u8]) -> Result<PlainFile, AllocError>
        ensures { IfOk result (λ f. file f ≡ record (file self.now) { bytes = bytes.now }) }
    {
        self.with(alloc, self.name.as_slice(), self.meta.as_slice(), bytes)
    }
}
