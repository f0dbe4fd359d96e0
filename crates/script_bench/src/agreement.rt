//! Runs that are compared with the flat table.
use crate::flat_lines::{flat_of, replies_of};
use crate::tables::are_of;
use crate::{Bench, Fault, Trouble, listed, table};

/// How a run on a volume compares with the flat table of its files.
#[derive(Clone, Copy)]
pub enum Agreement {
    /// Each line is answered as by the flat table, whose files are there afterwards, on a volume in order.
    Whole,
    /// The reply of that number, from 1 on, is another one.
    Reply(usize),
    /// The run ends with that status.
    Status(u8),
    /// The files are others afterwards.
    Files,
    /// A check afterwards finds something to do.
    Order,
}

/// Whether a check finds nothing to do on an image, which has two free blocks at least.
pub fn is_in_order(bench: &Bench, image: &[u8]) -> Result<bool, Trouble> {
    let checked = bench.check(image, Fault::Nothing)?;
    let report = b"erased 0 killed 0 damaged 0 free ";
    Ok(
        checked.status == 0
            && checked.said.as_slice().starts_with(report)
            && checked.image.as_slice() == image,
    )
}

// The number of the first line in which two texts differ, from 1.
fn differs(one: &[u8], other: &[u8]) -> Option<usize> {
    let mut lines = 1usize;
    for (a, b) in one.iter().zip(other.iter()) {
        if a != b {
            return Some(lines);
        }
        if *a == b'\n' {
            lines = lines.saturating_add(1);
        }
    }
    if one.len() == other.len() {
        None
    } else {
        Some(lines)
    }
}

/// How a run of a script on an image compares with the flat table of the image's files, and the image that it leaves.
pub fn agreement_of(
    bench: &Bench,
    image: &[u8],
    script: &[u8],
) -> Result<(Agreement, Vec<u8>), Trouble> {
    let mut flat = flat_of(bench, &listed(bench, image)?)?;
    let replies = replies_of(bench, &mut flat, script)?;
    let ran = bench.run(image, script, Fault::Nothing)?;
    let found = if let Some(line) = differs(&ran.said, &replies) {
        Agreement::Reply(line)
    } else if ran.status != 0 {
        Agreement::Status(ran.status)
    } else if !are_of(&table(bench.alloc, &bench.g, &ran.image)?, &flat)? {
        Agreement::Files
    } else if !is_in_order(bench, &ran.image)? {
        Agreement::Order
    } else {
        Agreement::Whole
    };
    Ok((found, ran.image))
}
