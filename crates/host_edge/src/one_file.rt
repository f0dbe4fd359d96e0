//! Whether two paths lead to one file of the host.
use std::fs;
use std::os::unix::fs::MetadataExt;
use std::rt::Files;

/// Whether two paths lead to one file of the host: they are the same text, or the host tells one device and one inode of what they lead
/// to, also through links. Of a path that leads to nothing only the text is known.
pub fn is_one_file<R: Files>(rt: &R, first: &str, second: &str) -> bool {
    if first == second {
        return true;
    }
    match (fs::metadata(rt, first), fs::metadata(rt, second)) {
        (Ok(one), Ok(other)) => one.dev() == other.dev() && one.ino() == other.ino(),
        _ => false,
    }
}
