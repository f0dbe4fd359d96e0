//! The flat table of a volume with files, and what it answers to lines of a script.
use crate::{Bench, Trouble};
use call_script::{parse_line, reply_text};
use geometry::Geometry;
use plain_image::Record;
use plain_table::{Flat, PlainFile, Said};
use table_model::{Call, Meta, Name, Reply, Stat};

// Does a call of the flat table that is not to be refused.
fn done(flat: &mut Flat, call: &Call<'_>) -> Result<(), Trouble> {
    match flat.answer(true, call)? {
        Said::Refusal(why) => Err(Trouble::Refused(why)),
        _ => Ok(()),
    }
}

// Puts the file of a record under the next id.
fn put_record(flat: &mut Flat, file: &Record) -> Result<(), Trouble> {
    let name = file.name.as_slice();
    done(flat, &Call::OpenFile { name, flags: 20 })?;
    let bytes = file.bytes.as_slice();
    done(flat, &Call::Write { fd: 1, bytes })?;
    done(flat, &Call::Close { fd: 1 })?;
    let meta = file.meta.as_slice();
    if meta.iter().any(|byte| *byte != 0xFF) {
        done(flat, &Call::SetMeta { name, meta })?;
    }
    Ok(())
}

// The name of an empty file that takes an id for a while, until the file behind it has its own.
fn gap_name(id: u16) -> [u8; 3] {
    let [low, high] = id.to_le_bytes();
    [1, low.max(1), high.max(1)]
}

// The numbers of a volume of twice the blocks, or of the same where there are none.
fn wider(g: &Geometry) -> Geometry {
    let blocks = g.blocks.saturating_mul(2);
    match Geometry::new(g.page, g.block, blocks, g.phys, g.meta, g.magic) {
        Ok(wide) => wide,
        Err(_) => *g,
    }
}

/// The flat table that holds these files, in order of their ids, with no open descriptor. They may leave no room on the volume.
pub(crate) fn flat_of(bench: &Bench, files: &[Record]) -> Result<Flat, Trouble> {
    let slots = bench.lends.slots.min(65535) as u16;
    let mut flat = Flat::new(bench.alloc, wider(&bench.g), slots)?;
    let mut gaps: Vec<u16> = Vec::new(bench.alloc);
    let mut next = 1u16;
    for file in files {
        for id in next..file.id {
            done(
                &mut flat,
                &Call::Create {
                    name: &gap_name(id),
                },
            )?;
            gaps.push(id)?;
        }
        put_record(&mut flat, file)?;
        next = file.id.saturating_add(1);
    }
    for id in gaps.iter() {
        done(
            &mut flat,
            &Call::Remove {
                name: &gap_name(*id),
            },
        )?;
    }
    flat.set_geometry(bench.g);
    Ok(flat)
}

// Writes the reply line of a file's record, and answers its length.
fn file_text(file: &PlainFile, into: &mut [u8; 4096]) -> Result<usize, Trouble> {
    if file.name.len() > 31 || file.meta.len() > 64 || file.bytes.len() > 65535 {
        return Err(Trouble::Text);
    }
    let stat = Stat {
        id: file.id,
        kind: file.kind,
        size: file.bytes.len() as u32,
        name: Name::from_slice(&file.name),
        meta: Meta::from_slice(&file.meta),
    };
    Ok(reply_text(&Reply::File(stat), into))
}

// Writes the reply line of an answer, and answers its length.
fn text_of(said: &Said, into: &mut [u8; 4096]) -> Result<usize, Trouble> {
    Ok(match said {
        Said::Done => reply_text(&Reply::Done, into),
        Said::NoMore => reply_text(&Reply::NoMore, into),
        Said::Room(info) => reply_text(&Reply::Room(*info), into),
        Said::Refusal(why) => reply_text(&Reply::Refusal(*why), into),
        Said::File(file) => file_text(file, into)?,
        Said::Number(number) => reply_text(&Reply::Number(*number), into),
        Said::Bytes(bytes) => {
            if bytes.len() > 1024 {
                return Err(Trouble::Text);
            }
            reply_text(&Reply::Bytes(bytes), into)
        }
    })
}

// Adds the reply line of the flat table to a line, if that is a call.
fn add_reply(flat: &mut Flat, line: &[u8], replies: &mut Vec<u8>) -> Result<(), Trouble> {
    let mut scratch = [0; 4096];
    let Ok(parsed) = parse_line(line, &mut scratch) else {
        return Err(Trouble::Line);
    };
    let Some(call) = parsed else {
        return Ok(());
    };
    let said = flat.answer(true, &call)?;
    let mut text = [0; 4096];
    let length = text_of(&said, &mut text)?;
    for byte in text.iter().take(length) {
        replies.push(*byte)?;
    }
    Ok(())
}

/// What the flat table answers to each line of a script, where two blocks are free throughout.
pub(crate) fn replies_of(
    bench: &Bench,
    flat: &mut Flat,
    script: &[u8],
) -> Result<Vec<u8>, Trouble> {
    let mut replies = Vec::new(bench.alloc);
    for line in script.split(|byte| *byte == b'\n') {
        add_reply(flat, line, &mut replies)?;
    }
    Ok(replies)
}
