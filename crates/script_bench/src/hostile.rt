//! Commands on images that were damaged at random, beside the plain programs.
use crate::damage::damage;
use crate::folders::holds;
use crate::tables::is_orderly;
use crate::wanted::{Wanted, check_of, list_of};
use crate::{Agreement, Bench, Fault, Told, Trouble, agreement_of, are_same, draw_calls, table};
use folder_core::MemFolder;

/// Calls of the script that is run on a damaged image.
const CALLS: u64 = 12;

/// The greatest id of a file on whose volume a script is run beside the flat table, which has to make as many files.
const MOST_ID: u16 = 12;

/// A command that did something else on an image than the plain programs tell.
#[derive(Clone, Copy)]
pub enum Odd {
    List,
    Extract,
    Check,
    Run,
}

/// How many images were met of each kind, and how many scripts were run beside the flat table.
#[derive(Clone, Copy)]
pub struct Met {
    /// Two or more blocks without their magic.
    pub foreign: u64,
    /// Shared blocks that can't be parted.
    pub over: u64,
    /// Damaged ids.
    pub damaged: u64,
    /// Anything else.
    pub whole: u64,
    /// Scripts beside the flat table.
    pub scripts: u64,
}

/// What came of a number of damaged images.
#[derive(Clone, Copy)]
pub enum Tried {
    /// Each command did what the plain programs tell.
    Whole(Met),
    /// A command did something else on the image of that seed.
    Odd { seed: u64, command: Odd },
}

// Whether a command said that, and ended with that status.
fn is_as(told: &Told, wanted: &Wanted) -> bool {
    told.is(wanted.status, &wanted.said)
}

// Whether a listing says what the plain program does, and changes nothing.
fn lists(bench: &Bench, image: &[u8]) -> Result<bool, Trouble> {
    let told = bench.give(&bench.words("list")?, image, b"", Fault::Nothing)?;
    let wanted = list_of(bench.alloc, &bench.g, image)?;
    Ok(is_as(&told, &wanted) && told.image.as_slice() == image)
}

// Whether an extraction says what a listing does, changes nothing, and puts the files of the table into a folder.
fn extracts(bench: &Bench, image: &[u8]) -> Result<bool, Trouble> {
    let mut folder = MemFolder::new(bench.alloc);
    let words = bench.words("extract")?;
    let told = bench.give_over(&words, image, b"", &mut folder, Fault::Nothing)?;
    let wanted = list_of(bench.alloc, &bench.g, image)?;
    if !is_as(&told, &wanted) || told.image.as_slice() != image {
        return Ok(false);
    }
    if told.status == 3 {
        return holds(bench.alloc, &mut folder, &[]);
    }
    holds(
        bench.alloc,
        &mut folder,
        &table(bench.alloc, &bench.g, image)?,
    )
}

// Whether what a check told and left is what the plain programs say.
fn checks(bench: &Bench, image: &[u8], told: &Told) -> Result<bool, Trouble> {
    let wanted = check_of(bench.alloc, &bench.g, image, &told.image)?;
    if !is_as(told, &wanted) {
        return Ok(false);
    }
    if told.status == 3 || told.status == 4 {
        return Ok(told.image.as_slice() == image);
    }
    let files = table(bench.alloc, &bench.g, image)?;
    Ok(
        are_same(&files, &table(bench.alloc, &bench.g, &told.image)?)
            && is_orderly(bench.alloc, &bench.g, &told.image)?,
    )
}

// Whether the flat table can stand beside the files of an image: it makes files of type 1, and as many as the greatest id.
fn is_for_flat(bench: &Bench, image: &[u8]) -> Result<bool, Trouble> {
    let files = table(bench.alloc, &bench.g, image)?;
    Ok(
        files
            .iter()
            .all(|file| file.kind == 1 && file.id <= MOST_ID),
    )
}

// Whether a run on an image ends as its check does, or else answers a script as the flat table does. None where no flat table is made.
fn runs(bench: &Bench, image: &[u8], checked: &Told, seed: u64) -> Result<Option<bool>, Trouble> {
    if matches!(checked.status, 3 | 4 | 14) {
        let told = bench.run(image, b"info\n", Fault::Nothing)?;
        return Ok(Some(told.status == checked.status));
    }
    if !is_for_flat(bench, image)? {
        return Ok(None);
    }
    let script = draw_calls(bench.alloc, seed, CALLS)?;
    let (found, _) = agreement_of(bench, image, script.as_bytes())?;
    Ok(Some(matches!(found, Agreement::Whole)))
}

impl Met {
    // None yet.
    fn none() -> Met {
        Met {
            foreign: 0,
            over: 0,
            damaged: 0,
            whole: 0,
            scripts: 0,
        }
    }

    // Counts an image by the status of its check.
    fn count(&mut self, status: u8) {
        let count = match status {
            3 => &mut self.foreign,
            4 => &mut self.over,
            12 => &mut self.damaged,
            _ => &mut self.whole,
        };
        *count = count.saturating_add(1);
    }
}

// Gives the commands on an image, and counts it. Answers the first that did something else than the plain programs tell.
fn try_image(
    bench: &Bench,
    image: &[u8],
    seed: u64,
    met: &mut Met,
) -> Result<Option<Odd>, Trouble> {
    if !lists(bench, image)? {
        return Ok(Some(Odd::List));
    }
    if !extracts(bench, image)? {
        return Ok(Some(Odd::Extract));
    }
    let checked = bench.check(image, Fault::Nothing)?;
    if !checks(bench, image, &checked)? {
        return Ok(Some(Odd::Check));
    }
    met.count(checked.status);
    match runs(bench, image, &checked, seed)? {
        Some(false) => return Ok(Some(Odd::Run)),
        Some(true) => met.scripts = met.scripts.saturating_add(1),
        None => {}
    }
    Ok(None)
}

/// Damages an image as so many seeds from one on draw, and lists, extracts, checks and runs each beside the plain programs.
pub fn try_damaged(bench: &Bench, image: &[u8], from: u64, count: u64) -> Result<Tried, Trouble> {
    let mut met = Met::none();
    for i in 0..count {
        let seed = from.saturating_add(i);
        let mut damaged = image.to_vec(bench.alloc)?;
        damage(bench.alloc, &mut damaged, &bench.g, seed)?;
        if let Some(command) = try_image(bench, &damaged, seed, &mut met)? {
            return Ok(Tried::Odd { seed, command });
        }
    }
    Ok(Tried::Whole(met))
}
