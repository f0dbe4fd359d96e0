/// The form of a promise.
#[derive(Clone, Copy, Debug, PartialEq, Eq)]
pub enum Form {
    /// The first of its files that is there has the bytes of the promise's line, or those of its end.
    First,
    /// One of its files is there.
    Any,
    /// Its file is there with the bytes of the promise's line.
    Kept,
}
