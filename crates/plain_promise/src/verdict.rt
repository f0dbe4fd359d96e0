// The rehearsal of a script.
ghost use Rattle.std.specs.Prelude.{◌≡◌, ◌<◌, ◌^◌, length, map, replicate, None, IfOk};
ghost use Rattle.call_script.specs.Lines.{lines};
ghost use Rattle.plain_table.specs.Seen.{file};
ghost use Rattle.promise_model.specs.Verdicts.{HasNoFault, Tells, promise_count};
ghost use Rattle.plain_promise.specs.Walks.{told};

use crate::broken::Broken;
use crate::ends::{Ends, find_ends};
use crate::grammar::{Checked, Fault, check_lines};
use crate::walk::{Turn, walk_lines};
use geometry::Geometry;
use plain_table::{PlainFile, PlainMoment};
use std::alloc::{AllocError, Global};

/// What a rehearsal tells of a script.
#[derive(Debug, Drop)]
pub enum Verdict {
    /// A line is at fault.
    Faulty(Fault),
    /// The call of the line of that number cuts a file where the table has no room for an index page, so that it may be refused or not.
    Tight(u32),
    /// Each of the promises is kept by each of the tables that a cut may leave, of which there are so many.
    Kept { promises: u32, tables: u64 },
    /// A promise is broken.
    Broken(Broken),
}

// The verdict on a script without a fault, which makes so many promises.
fn judge(
    alloc: Global,
    geometry: Geometry,
    files: &[PlainFile],
    slots: u16,
    script: &[u8],
    promises: u32,
) -> Result<Verdict, AllocError>
    requires few { length script.now < 2 ^ 31 }
    requires fine { HasNoFault script.now }
    requires count { promises ≡ promise_count (lines script.now) }
    ensures { IfOk result (λ verdict. Tells geometry (record { table = map file files.now; slots = replicate slots None }) script.now (told verdict)) }
{
    let first = PlainMoment::first(alloc, geometry, files, slots)?;
    match find_ends(alloc, first, script)? {
        Ends::Tight(line) => Ok(Verdict::Tight(line)),
        Ends::Tables(ends) => {
            let first = PlainMoment::first(alloc, geometry, files, slots)?;
            match walk_lines(alloc, first, ends.as_slice(), script)? {
                Turn::Broken(broken) => Ok(Verdict::Broken(broken)),
                Turn::On(walk) => Ok(Verdict::Kept {
                    promises,
                    tables: walk.tables,
                }),
            }
        }
    }
}

/// Judges the promises of a script on a volume with these files and so many descriptors, all of them closed. The script has fewer than 2 ^ 31
/// bytes. Wants memory for the tables.
pub fn rehearse(
    alloc: Global,
    geometry: Geometry,
    files: &[PlainFile],
    slots: u16,
    script: &[u8],
) -> Result<Verdict, AllocError>
    requires { length script.now < 2 ^ 31 }
    ensures { IfOk result (λ verdict. Tells geometry (record { table = map file files.now; slots = replicate slots None }) script.now (told verdict)) }
{
    match check_lines(alloc, script)? {
        Checked::Faulty(fault) => Ok(Verdict::Faulty(fault)),
        Checked::Fine(promises) => judge(alloc, geometry, files, slots, script, promises),
    }
}
