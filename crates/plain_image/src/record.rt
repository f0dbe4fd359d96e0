ghost use Rattle.std.specs.Prelude.{◌<◌, ◌^◌, length};

/// A file of the table, with bytes of its own.
#[derive(Debug, Drop)]
pub struct Record {
    /// The object id, from 1 to 0x7FFF.
    pub id: u16,
    /// The name, without the zero that ends it.
    pub name: Vec<u8>,
    /// The type; 1 is a plain file.
    pub kind: u8,
    /// The meta bytes, as many as the volume has for each file.
    pub meta: Vec<u8>,
    /// The file's bytes.
    pub bytes: Vec<u8>,
    ghost small: { length bytes.items < 2 ^ 32 },
}
