/// Why an id that has a header page has no file in the table.
#[derive(Clone, Copy, Debug, PartialEq, Eq)]
pub enum Damage {
    /// The name is empty, or none of its 32 bytes is zero.
    BadName,
    /// The first data span below the size that has no data page.
    Missing(u32),
    /// The id that counts of those whose files have this name.
    SameName(u16),
}
