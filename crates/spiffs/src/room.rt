//! The words `df` and `size`: how full a volume is with the largest file that it still takes, and how many blocks a folder needs.
use crate::give::{Guard, Told, chip_copy, end_by, end_told, give_on, row_of};
use crate::look::geometry_of;
use crate::meant::{Meant, text_of};
use crate::stop::Stop;
use crate::trees::{explain_name, explain_passed, explain_tree};
use crate::{USAGE, take_memory, tell};
use call_script::parse_number;
use file_room::largest_file;
use folder_core::Folder;
use folder_size::{Need, Shape, least_blocks};
use front_edge::HostChip;
use front_words::{Asked, folder_word, known_block, known_meta, known_page};
use host_edge::StdFolder;
use host_tree::TreeFiles;
use nor_core::Failed;
use std::str;
use table_model::Info;
use tool_parts::Ending;

// The number behind a word of a reply.
fn number_behind(reply: &str, word: &str) -> Option<u32> {
    let (_, rest) = reply.split_once(word)?;
    let digits = match rest.split_once(' ') {
        Some((digits, _)) => digits,
        None => rest,
    };
    u32::try_from(parse_number(digits.as_bytes(), u64::from(u32::MAX))?).ok()
}

// How full a volume is, by the reply to `info`.
fn info_in(reply: &str) -> Option<Info> {
    Some(Info {
        files: number_behind(reply, "files ")?,
        index_pages: number_behind(reply, "index ")?,
        data_pages: number_behind(reply, "data ")?,
        usable_pages: number_behind(reply, "usable ")?,
    })
}

// How full the volume is, by what a command said that asked it.
fn info_told<C: HostChip>(told: &Told<C>) -> Option<Info> {
    if told.status != 0 {
        return None;
    }
    info_in(str::from_utf8(told.said.as_slice()).ok()?.trim_end())
}

/// Says how full the volume is, once it was checked, and the bytes of the largest new file that it takes. Both are asked of a copy in
/// memory.
pub fn df(rt: &HostRuntime, meant: &Meant<'_>) -> Result<u8, Stop> {
    let mut memory = take_memory(rt, &meant.top)?;
    let mut folder = StdFolder::unlisted(rt, rt.alloc());
    let row = row_of(rt, meant, chip_copy(rt, meant)?)?;
    let script = b"info\n";
    let mut told = give_on(
        rt,
        meant,
        row,
        script,
        &mut folder,
        &mut memory,
        Guard::Foretells,
    )?;
    let (Some(g), Some(info)) = (geometry_of(&meant.top), info_told(&told)) else {
        return Ok(end_told(rt, meant, &told));
    };
    let files = info.files;
    let index = info.index_pages;
    let data = info.data_pages;
    let usable = info.usable_pages;
    let room = match largest_file(&g, &info) {
        Some(bytes) => format!(in rt.alloc(); "largest {bytes}\n")?,
        None => format!(in rt.alloc(); "largest none\n")?,
    };
    let line = format!(in rt.alloc();
        "files {files} index {index} data {data} usable {usable}\n{room}"
    )?;
    told.said = line.as_bytes().to_vec(rt.alloc())?;
    Ok(end_told(rt, meant, &told))
}

// The numbers that a folder's volume is to have; each of them is known, since a preset tells those that aren't given.
fn shape_of(asked: &Asked) -> Option<Shape> {
    let block = known_block(asked)?;
    Some(Shape {
        page: known_page(asked)?,
        block,
        phys: block,
        meta: known_meta(asked)?,
    })
}

// The bytes of so many blocks.
fn bytes_of(blocks: u32, block: u32) -> u64 {
    u64::from(blocks) * u64::from(block)
}

/// Says how many blocks would do, where an image has no room for the files of a folder.
pub fn explain_need<F: Folder>(rt: &HostRuntime, meant: &Meant<'_>, folder: &mut F) {
    let shape = Shape {
        page: meant.volume.page,
        block: meant.volume.block,
        phys: meant.volume.block,
        meta: meant.volume.meta,
    };
    if let Ok(Need::Blocks(blocks)) = least_blocks(shape, folder) {
        let bytes = bytes_of(blocks, shape.block);
        // (if standard error fails too there is nobody to tell)
        let _said = eprintln!(rt; "spiffs: {blocks} blocks would do, {bytes} bytes");
    }
}

// Prints how many blocks are needed, and how many bytes these are.
fn tell_blocks(rt: &HostRuntime, shape: Shape, blocks: u32) -> Result<u8, Stop> {
    let bytes = bytes_of(blocks, shape.block);
    let line = format!(in rt.alloc(); "blocks {blocks} bytes {bytes}\n")?;
    Ok(tell(rt, &line, 0))
}

// Prints what a folder needs, or why no volume takes it.
fn tell_need<'r>(
    rt: &'r HostRuntime,
    shape: Shape,
    tree: &TreeFiles<&'r HostRuntime>,
    folder: &StdFolder<&TreeFiles<&'r HostRuntime>>,
    need: Result<Need, Failed>,
) -> Result<u8, Stop> {
    match need {
        Ok(Need::Blocks(blocks)) => tell_blocks(rt, shape, blocks),
        Ok(Need::BadName { at }) => {
            let status = end_by(rt, Ending::BadName(at));
            if let Some(bad) = folder.bad_name() {
                // (if standard error fails too there is nobody to tell)
                let _said = explain_name(rt, tree, bad);
            }
            Ok(status)
        }
        Ok(Need::TooMany { index, data_pages }) => Ok(end_by(
            rt,
            Ending::Full { index, data_pages },
        )),
        Ok(Need::NoVolume(why)) => {
            let status = end_by(rt, Ending::Geometry(why));
            let _said = eprintln!(rt; "spiffs: {why}");
            Ok(status)
        }
        Err(Failed) => {
            let status = end_by(rt, Ending::FolderFault);
            explain_tree(rt, tree, folder);
            Ok(status)
        }
    }
}

/// Says how many blocks a volume needs at least for the tree below a folder, and how many bytes these are.
pub fn size(rt: &HostRuntime, words: &[String], asked: &Asked) -> Result<u8, Stop> {
    let Some(shape) = shape_of(asked) else {
        return Ok(tell(rt, "! usage\n", USAGE));
    };
    let top = text_of(folder_word(words, asked));
    let tree = TreeFiles::new(rt, rt.alloc(), top, false)?;
    let mut folder = StdFolder::new(&tree, rt.alloc(), top)?;
    let need = least_blocks(shape, &mut folder);
    let status = tell_need(rt, shape, &tree, &folder, need)?;
    let _said = explain_passed(rt, &tree);
    Ok(status)
}
