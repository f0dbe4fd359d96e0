//! What a folder in memory holds.
use crate::Trouble;
use folder_core::{Folder, MemFolder};
use plain_image::Record;
use std::alloc::Global;

// Whether file `i` of a folder has a file's name and bytes.
fn is_file(alloc: Global, folder: &mut MemFolder, i: u32, file: &Record) -> Result<bool, Trouble> {
    if i >= folder.count()? {
        return Ok(false);
    }
    let mut front = [0u8; 32];
    let length = folder.name(i, &mut front)?;
    if front.get(..length) != Some(file.name.as_slice()) {
        return Ok(false);
    }
    if folder.size(i)? != file.bytes.len() as u64 {
        return Ok(false);
    }
    let mut bytes = vec![in alloc; 0u8; file.bytes.len()]?;
    folder.read(i, 0, &mut bytes)?;
    Ok(bytes.as_slice() == file.bytes.as_slice())
}

/// Whether a folder has these files, in their order, and no other.
pub(crate) fn holds(
    alloc: Global,
    folder: &mut MemFolder,
    files: &[Record],
) -> Result<bool, Trouble> {
    let count = folder.count()?;
    if count as usize != files.len() {
        return Ok(false);
    }
    for (i, file) in (0..count).zip(files.iter()) {
        if !is_file(alloc, folder, i, file)? {
            return Ok(false);
        }
    }
    Ok(true)
}
