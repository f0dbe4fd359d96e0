//! Folders in folders: `pack` makes an image of a tree, and `unpack` puts the files of an image into one.
use crate::give::{Guard, Told, chip_copy, chip_file, end_told, give_on, row_of};
use crate::meant::{Meant, text_of};
use crate::room::explain_need;
use crate::save::save_copy;
use crate::stop::Stop;
use crate::{BAD_NAME, FOLDER_FAULT, FULL, Memory, explain, take_memory};
use chip_row::ChipRow;
use folder_core::{Folder, MemFolder};
use front_edge::{HostChip, blank_chip};
use front_words::{folder_word, push_word};
use host_edge::{BadName, Bounds, FileId, Shown, SizeLimit, StdFolder};
use host_tree::TreeFiles;
use std::alloc::{AllocError, Global};
use std::io;

// The name of a file in the folder of a tree's files, as it stands in the tree.
fn bad_name_in<'f>(bad: BadName<'f>, path: &'f str, by: &'f str) -> BadName<'f> {
    match bad {
        BadName::Empty { .. } => BadName::Empty { path },
        BadName::Zero { .. } => BadName::Zero { path },
        BadName::Long { bytes, .. } => BadName::Long { path, bytes },
        BadName::Taken { .. } => BadName::Taken { path, by },
    }
}

// The entries of the folder that a bad name speaks of: its own, and that of the file that has the name already.
fn entries_of<'f>(bad: &BadName<'f>) -> (&'f str, &'f str) {
    match *bad {
        BadName::Empty { path } | BadName::Zero { path } | BadName::Long { path, .. } => {
            (path, path)
        }
        BadName::Taken { path, by } => (path, by),
    }
}

/// Says which file of a tree has a name that no file of a volume can have.
pub fn explain_name(
    rt: &HostRuntime,
    tree: &TreeFiles<&HostRuntime>,
    bad: BadName<'_>,
) -> io::Result<()> {
    let (entry, other) = entries_of(&bad);
    let path = tree.host_path(entry)?;
    let by = tree.host_path(other)?;
    let told = bad_name_in(bad, path.as_str(), by.as_str());
    eprintln!(rt; "spiffs: {told}")
}

/// Says what of a tree was passed over.
pub fn explain_passed(rt: &HostRuntime, tree: &TreeFiles<&HostRuntime>) -> io::Result<()> {
    for number in 0..usize::MAX {
        let Some(path) = tree.passed_over(number)? else {
            return Ok(());
        };
        let path = Shown(path.as_str());
        eprintln!(rt; "spiffs: {path}: a link or special file, passed over")?;
    }
    Ok(())
}

// The path on which a tree failed: that of a file that is there, or the one of which the host was asked last.
fn failed_path(
    tree: &TreeFiles<&HostRuntime>,
    folder: &StdFolder<&TreeFiles<&HostRuntime>>,
) -> io::Result<String> {
    match tree.host_path(folder.failed_path()) {
        Ok(path) => Ok(path),
        Err(_) => tree.asked_path(),
    }
}

/// Says what failed of a tree, and on which path.
pub fn explain_tree<'r>(
    rt: &'r HostRuntime,
    tree: &TreeFiles<&'r HostRuntime>,
    folder: &StdFolder<&TreeFiles<&'r HostRuntime>>,
) {
    let Some(trouble) = folder.trouble() else {
        return;
    };
    if let Ok(path) = failed_path(tree, folder) {
        let path = Shown(path.as_str());
        // (if standard error fails too there is nobody to tell)
        let _said = eprintln!(rt; "spiffs: {path}: {trouble}");
        return;
    }
    explain(rt, Some(trouble));
}

// What no file of the tree may be: the image, where it is there; and how large it may become.
fn bounds_of(rt: &HostRuntime, meant: &Meant<'_>) -> Result<Bounds, AllocError> {
    let mut chips = Vec::new(rt.alloc());
    if let Some(held) = &meant.held {
        if let Ok(told) = held.metadata() {
            chips.push(FileId::of(&told))?;
        }
    }
    let limit = SizeLimit::of(rt);
    Ok(Bounds { chips, limit })
}

// Says which files were put aside for the sake of their names alone.
fn explain_aside(rt: &HostRuntime, tree: &TreeFiles<&HostRuntime>) -> io::Result<()> {
    for number in 0..usize::MAX {
        let Some(path) = tree.unwanted(number)? else {
            return Ok(());
        };
        let path = Shown(path.as_str());
        eprintln!(rt;
            "spiffs: {path}: put aside, since its name holds control characters; --raw-names takes it as it is"
        )?;
    }
    Ok(())
}

// Ends a line that makes an image of a tree.
fn end_pack<'r, C: HostChip>(
    rt: &'r HostRuntime,
    meant: &Meant<'_>,
    tree: &TreeFiles<&'r HostRuntime>,
    folder: &mut StdFolder<&TreeFiles<&'r HostRuntime>>,
    told: &Told<C>,
) -> u8 {
    let status = end_told(rt, meant, told);
    // (if standard error fails too there is nobody to tell)
    let _said = explain_passed(rt, tree);
    match status {
        FOLDER_FAULT => explain_tree(rt, tree, folder),
        FULL => explain_need(rt, meant, folder),
        BAD_NAME => {
            if let Some(bad) = folder.bad_name() {
                let _said = explain_name(rt, tree, bad);
            }
        }
        _ => {}
    }
    status
}

// The line of the top call with the folder's name.
fn with_folder(alloc: Global, meant: &mut Meant<'_>) -> Result<(), AllocError> {
    let folder = text_of(folder_word(meant.words, &meant.asked));
    push_word(alloc, &mut meant.top, folder)
}

/// Makes an image of the tree below a folder. It is made in memory, and the file is written once it is whole; what the file has behind the
/// volume is cut off. An image that stands in the tree already is refused, since it would be a file of itself.
pub fn pack(rt: &HostRuntime, meant: &mut Meant<'_>) -> Result<u8, Stop> {
    with_folder(rt.alloc(), meant)?;
    let top = text_of(folder_word(meant.words, &meant.asked));
    let mut memory = take_memory(rt, &meant.top)?;
    let tree = TreeFiles::new(rt, rt.alloc(), top, false)?;
    let bounds = bounds_of(rt, meant)?;
    let mut folder = StdFolder::within(&tree, rt.alloc(), top, bounds)?;
    folder.refuse_chips();
    let chip = blank_chip(rt.alloc(), meant.size, meant.unit)?;
    let row = row_of(rt, meant, chip)?;
    let told = give_on(rt, meant, row, b"", &mut folder, &mut memory, Guard::Open)?;
    if told.status == 0 && !meant.asked.is_dry {
        save_copy(rt, meant, &told.row)?;
    }
    Ok(end_pack(rt, meant, &tree, &mut folder, &told))
}

// Tells what would be put into the tree.
fn unpack_dry(rt: &HostRuntime, meant: &Meant<'_>, memory: &mut Memory) -> Result<u8, Stop> {
    let mut folder = MemFolder::new(rt.alloc());
    let row = row_of(rt, meant, chip_file(meant)?)?;
    let told = give_on(rt, meant, row, b"", &mut folder, memory, Guard::Open)?;
    Ok(end_told(rt, meant, &told))
}

/// Puts the files of the volume into the tree below a folder, which is made if it isn't there. The image itself is never written over.
pub fn unpack(rt: &HostRuntime, meant: &mut Meant<'_>) -> Result<u8, Stop> {
    with_folder(rt.alloc(), meant)?;
    let top = text_of(folder_word(meant.words, &meant.asked));
    let mut memory = take_memory(rt, &meant.top)?;
    if meant.asked.is_dry {
        return unpack_dry(rt, meant, &mut memory);
    }
    let mut tree = TreeFiles::new(rt, rt.alloc(), top, true)?;
    if meant.asked.raw_names {
        tree.take_raw_names();
    }
    let bounds = bounds_of(rt, meant)?;
    let mut folder = StdFolder::within(&tree, rt.alloc(), top, bounds)?;
    let chip = chip_copy(rt, meant)?;
    let row = row_of(rt, meant, chip)?;
    let told = give_on(rt, meant, row, b"", &mut folder, &mut memory, Guard::Open)?;
    let status = end_told(rt, meant, &told);
    // (if standard error fails too there is nobody to tell)
    let _said = explain_aside(rt, &tree);
    if status == FOLDER_FAULT {
        explain_tree(rt, &tree, &folder);
    }
    Ok(status)
}
