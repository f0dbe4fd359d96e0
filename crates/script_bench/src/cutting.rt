//! Scripts whose power is cut at each of their programs, erases and replies, and scripts in which a call of the device fails.
use crate::{Bench, Fault, Steps, Told, Trouble, are_same, listed, spare_blocks};
use nor_memory::CallKind;

/// The status where the device failed.
const DEVICE_FAULT: u8 = 7;

/// Fewer than two blocks are free.
const FEW_BLOCKS: u8 = 14;

/// More calls than are tried.
const MOST: u64 = 10_000;

/// What came of cuts or faults at one place after the other.
#[derive(Clone, Copy)]
pub enum Swept {
    /// All was as it is to be, at so many places.
    Whole(u64),
    /// Something else is left of a cut inside the call behind so many, which was done as the pick says.
    Cut { passed: u64, pick: u64 },
    /// Something else is left where the call of that number failed.
    Failed { nth: u64 },
}

// Whether a check brings what a run left into order: two blocks are free, and the files are as before it, and some that may be left.
fn recovers(steps: &Steps, ran: &Told, is_done: bool) -> Result<bool, Trouble> {
    let bench = &steps.bench;
    let checked = bench.check(&ran.image, Fault::Nothing)?;
    let free = spare_blocks(&bench.g, &checked.image).unwrap_or(0);
    let files = listed(bench, &checked.image)?;
    let are_as_before = are_same(&listed(bench, &ran.image)?, &files);
    Ok(
        checked.status == 0
            && free >= 2
            && are_as_before
            && steps.may_leave(ran.lines(), is_done, &files)?,
    )
}

// What a script leaves where the power is cut.
fn cut(steps: &Steps, passed: u64, pick: u64) -> Result<Told, Trouble> {
    steps
        .bench
        .run(&steps.image, &steps.script, Fault::Power { passed, pick })
}

// Cuts a script inside one call, where all of it is done, and where some bits are: where nothing is it is cut behind the call before. The pick
// at which something else is left, if there is one.
fn cut_at(steps: &Steps, passed: u64, mut last: Told) -> Result<Option<u64>, Trouble> {
    if !recovers(steps, &last, false)? {
        return Ok(Some(1));
    }
    for pick in 2..5 {
        let ran = cut(steps, passed, pick)?;
        let is_new = ran.image.as_slice() != last.image.as_slice() || ran.lines() != last.lines();
        if ran.status != DEVICE_FAULT || (is_new && !recovers(steps, &ran, false)?) {
            return Ok(Some(pick));
        }
        last = ran;
    }
    Ok(None)
}

/// Cuts a script before its first program, erase or reply, and inside each of them, done in four ways. A check is to leave two free blocks and
/// a table that may be left.
pub fn cut_each(steps: &Steps) -> Result<Swept, Trouble> {
    if !recovers(steps, &cut(steps, 0, 0)?, false)? {
        return Ok(Swept::Cut { passed: 0, pick: 0 });
    }
    for passed in 0..MOST {
        let ran = cut(steps, passed, 1)?;
        if ran.status != DEVICE_FAULT {
            return Ok(Swept::Whole(passed));
        }
        if let Some(pick) = cut_at(steps, passed, ran)? {
            return Ok(Swept::Cut { passed, pick });
        }
    }
    Ok(Swept::Whole(MOST))
}

// The status of a check that is cut too, and whether it leaves the files of an image, and the check after it.
fn recover(bench: &Bench, image: &[u8], passed: u64) -> Result<(u8, bool), Trouble> {
    let pick = passed % 5;
    let half = bench.check(image, Fault::Power { passed, pick })?;
    let again = bench.check(&half.image, Fault::Nothing)?;
    let files = listed(bench, image)?;
    let are = are_same(&files, &listed(bench, &half.image)?)
        && are_same(&files, &listed(bench, &again.image)?)
        && (again.status == 0 || again.status == FEW_BLOCKS);
    Ok((half.status, are))
}

// Cuts the check of what a cut left at each of its programs and erases: the files are to stay.
fn cut_recovery(steps: &Steps, ran: &Told) -> Result<Swept, Trouble> {
    for passed in 0..MOST {
        let (status, are) = recover(&steps.bench, &ran.image, passed)?;
        if status != DEVICE_FAULT && are {
            return Ok(Swept::Whole(passed));
        }
        if !are {
            return Ok(Swept::Cut {
                passed,
                pick: passed % 5,
            });
        }
    }
    Ok(Swept::Whole(MOST))
}

/// Cuts a script inside the call behind so many, done in part, and then its recovery at each of its programs and erases: the files are to stay.
pub fn cut_recoveries(steps: &Steps, passed: u64) -> Result<Swept, Trouble> {
    let ran = cut(steps, passed, 3)?;
    if ran.status != DEVICE_FAULT {
        return Ok(Swept::Cut { passed, pick: 3 });
    }
    cut_recovery(steps, &ran)
}

/// Cuts a script so inside each of its calls, and each recovery: at how many programs and erases of recoveries that was, in all.
pub fn cut_all_recoveries(steps: &Steps) -> Result<Swept, Trouble> {
    let mut all = 0u64;
    for passed in 0..MOST {
        let ran = cut(steps, passed, 3)?;
        if ran.status != DEVICE_FAULT {
            break;
        }
        match cut_recovery(steps, &ran)? {
            Swept::Whole(count) => all = all.saturating_add(count),
            odd => return Ok(odd),
        }
    }
    Ok(Swept::Whole(all))
}

/// What a script leaves that is cut inside the call behind so many, if a line was answered, and a check leaves two free blocks and a table that may
/// be left.
pub fn cut_once(steps: &Steps, passed: u64) -> Result<Option<Told>, Trouble> {
    let ran = cut(steps, passed, passed % 5)?;
    if ran.status == DEVICE_FAULT && ran.lines() > 0 && recovers(steps, &ran, false)? {
        Ok(Some(ran))
    } else {
        Ok(None)
    }
}

/// Lets each call of a kind fail in turn. The run is to end there, and a check to leave two free blocks and a table that may be left: where a
/// reply isn't said, its line was done.
pub fn fail_each(steps: &Steps, kind: CallKind) -> Result<Swept, Trouble> {
    for passed in 0..MOST {
        let nth = passed.saturating_add(1);
        let ran = steps
            .bench
            .run(&steps.image, &steps.script, Fault::Call { kind, nth })?;
        if ran.status == 0 {
            return Ok(Swept::Whole(passed));
        }
        if ran.status != DEVICE_FAULT || !recovers(steps, &ran, kind == CallKind::Say)? {
            return Ok(Swept::Failed { nth });
        }
    }
    Ok(Swept::Whole(MOST))
}

/// How many calls of a kind, fewer than 65,536, a command asks for that ends with no fault: those are asked for whose failing ends it.
pub fn count_calls(
    bench: &Bench,
    words: &str,
    image: &[u8],
    script: &[u8],
    kind: CallKind,
) -> Result<u64, Trouble> {
    let mut step = 1u64;
    for _ in 0..16 {
        let fault = Fault::Call { kind, nth: step };
        if bench.give(words, image, script, fault)?.status != DEVICE_FAULT {
            break;
        }
        step = step.saturating_mul(2);
    }
    let mut calls = 0u64;
    for _ in 0..16 {
        step /= 2;
        let nth = calls.saturating_add(step);
        let fault = Fault::Call { kind, nth };
        if step > 0 && bench.give(words, image, script, fault)?.status == DEVICE_FAULT {
            calls = nth;
        }
    }
    Ok(calls)
}

// Whether an image has the same files as another, and a check leaves it these and two free blocks.
fn is_mended(bench: &Bench, was: &[u8], image: &[u8]) -> Result<bool, Trouble> {
    let files = listed(bench, was)?;
    let checked = bench.check(image, Fault::Nothing)?;
    let free = spare_blocks(&bench.g, &checked.image).unwrap_or(0);
    Ok(
        checked.status == 0
            && free >= 2
            && are_same(&files, &listed(bench, image)?)
            && are_same(&files, &listed(bench, &checked.image)?),
    )
}

/// Cuts a scrub with a limit, or a map with an id, inside each of its programs, erases and replies, done in five ways. The files are to stay,
/// and a check is to leave two free blocks.
pub fn cut_numbered(
    bench: &Bench,
    image: &[u8],
    command: &str,
    number: u64,
) -> Result<Swept, Trouble> {
    let words = bench.numbered_words(command, number)?;
    for passed in 0..MOST {
        for pick in 0..5 {
            let ran = bench.give(&words, image, b"", Fault::Power { passed, pick })?;
            if ran.status != DEVICE_FAULT {
                return Ok(Swept::Whole(passed));
            }
            if !is_mended(bench, image, &ran.image)? {
                return Ok(Swept::Cut { passed, pick });
            }
        }
    }
    Ok(Swept::Whole(MOST))
}
