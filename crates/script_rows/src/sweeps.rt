//! Parts of a case that try many runs, and tell one verdict.
use crate::chip::Chip;
use crate::commands::{kind_of, kind_text};
use crate::words::{number, word};
use script_bench::{
    Agreement, Odd, Steps, Swept, Tried, Trouble, agreement_of, cut_all_recoveries, cut_copies,
    cut_each, cut_numbered, cut_recoveries, draw_beside, draw_calls, draw_files, fail_copies,
    fail_each, fail_sources, try_damaged,
};
use std::alloc::AllocError;

// Tells how a run compares with the flat table.
fn tell_agreement(found: Agreement, out: &mut String) -> Result<(), AllocError> {
    match found {
        Agreement::Whole => write!(out, "replies and files as of the flat table, in order\n"),
        Agreement::Reply(line) => write!(out, "reply {line} is not that of the flat table\n"),
        Agreement::Status(status) => write!(out, "status {status}\n"),
        Agreement::Files => write!(out, "files that are not those of the flat table\n"),
        Agreement::Order => write!(out, "not in order\n"),
    }
}

/// Runs a script on a chip beside the flat table of its files.
pub fn compare(chip: &mut Chip, text: &str, out: &mut String) -> Result<(), Trouble> {
    let (found, image) = agreement_of(&chip.bench()?, &chip.image, text.as_bytes())?;
    chip.image = image;
    out.push_str("  ")?;
    tell_agreement(found, out)?;
    Ok(())
}

/// Runs scripts that are drawn from seeds beside the flat table: `drawn KIND CALLS SEED..`.
pub fn draw(chip: &Chip, words: &[&str], out: &mut String) -> Result<(), Trouble> {
    let bench = chip.bench()?;
    let calls = number(words, 2, 10_000)?;
    for at in 3..words.len() {
        let seed = number(words, at, u64::MAX)?;
        let script = match word(words, 1)? {
            "files" => draw_files(bench.alloc, seed, calls)?,
            "beside" => draw_beside(bench.alloc, seed, calls)?,
            "calls" => draw_calls(bench.alloc, seed, calls)?,
            _ => return Err(Trouble::Line),
        };
        let (found, _) = agreement_of(&bench, &chip.image, script.as_bytes())?;
        write!(out, "  {seed}: ")?;
        tell_agreement(found, out)?;
    }
    Ok(())
}

// Tells what came of commands on damaged images.
fn tell_tried(tried: Tried, out: &mut String) -> Result<(), AllocError> {
    match tried {
        Tried::Whole(met) => write!(
            out,
            "  {} in order or soon so, {} with damaged ids, {} with blocks that can't be parted, {} no volume; {} scripts as of the flat table\n",
            met.whole, met.damaged, met.over, met.foreign, met.scripts
        ),
        Tried::Odd { seed, command } => {
            let command = match command {
                Odd::List => "list",
                Odd::Extract => "extract",
                Odd::Check => "check",
                Odd::Run => "run",
            };
            write!(
                out,
                "  damaged as {seed} says: {command} is not as the plain program tells\n"
            )
        }
    }
}

/// Damages the chip as seeds draw, and lists, extracts, checks and runs each: `damaged FROM COUNT`.
pub fn damage(chip: &Chip, words: &[&str], out: &mut String) -> Result<(), Trouble> {
    let from = number(words, 1, u64::MAX)?;
    let count = number(words, 2, 10_000)?;
    tell_tried(try_damaged(&chip.bench()?, &chip.image, from, count)?, out)?;
    Ok(())
}

// Tells what came of a sweep over so many calls.
fn tell_swept(found: Swept, calls: &str, good: &str, out: &mut String) -> Result<(), AllocError> {
    match found {
        // (how often pages are read is not told: that is for the cache to choose)
        Swept::Whole(_) if calls == "reads" => write!(out, "  {calls}: {good}\n"),
        Swept::Whole(count) => write!(out, "  {count} {calls}: {good}\n"),
        Swept::Cut { passed, pick } => {
            write!(out, "  cut behind {passed} calls, as {pick} says: not so\n")
        }
        Swept::Failed { nth } => write!(out, "  where the call {nth} fails: not so\n"),
    }
}

/// Cuts the power at each program, erase and reply of a script.
pub fn cut(steps: &Steps, out: &mut String) -> Result<(), Trouble> {
    let good = "after a cut at each a check leaves a front of the steps and two free blocks";
    tell_swept(cut_each(steps)?, "programs, erases and replies", good, out)?;
    Ok(())
}

/// Tells whether what a cut left behind so many calls is as it is to be.
pub fn tell_turn(passed: u64, is_so: bool, out: &mut String) -> Result<(), Trouble> {
    let told = if is_so {
        "a check leaves a front of the steps and two free blocks"
    } else {
        "not so"
    };
    write!(out, "  behind {passed}: {told}\n")?;
    Ok(())
}

/// Cuts the power of a script behind so many calls, or inside each, and of the check behind it at each of its own.
pub fn cut_twice(steps: &Steps, words: &[&str], out: &mut String) -> Result<(), Trouble> {
    let good = "cut at each of them the check leaves the files too";
    if word(words, 1)? == "each" {
        let found = cut_all_recoveries(steps)?;
        tell_swept(found, "programs and erases of checks", good, out)?;
        return Ok(());
    }
    for at in 1..words.len() {
        let passed = number(words, at, u64::MAX)?;
        let found = cut_recoveries(steps, passed)?;
        write!(out, "  behind {passed}:")?;
        tell_swept(found, "programs and erases of a check", good, out)?;
    }
    Ok(())
}

/// Cuts the power of a command at each program, erase and reply: `scrubs LIMIT`, `maps ID`.
pub fn numbered(
    chip: &Chip,
    command: &str,
    words: &[&str],
    out: &mut String,
) -> Result<(), Trouble> {
    let good = "the files stay, and a check leaves two free blocks";
    let number = number(words, 1, u64::MAX)?;
    let found = cut_numbered(&chip.bench()?, &chip.image, command, number)?;
    let what = match command {
        "map" => "programs, erases and replies of a map",
        _ => "programs, erases and replies of a scrub",
    };
    tell_swept(found, what, good, out)?;
    Ok(())
}

/// Cuts the power of a copy at each program, erase and reply, and lets each call of either chip fail in turn; the copy behind it is cut once too.
pub fn copies(chip: &Chip, out: &mut String) -> Result<(), Trouble> {
    let copying = chip.copying()?;
    let good =
        "each name has what it may have, after one more cut too, and then the copy ends as an uncut one";
    tell_swept(
        cut_copies(&copying)?,
        "programs, erases and replies",
        good,
        out,
    )?;
    for kind in ["read", "program", "erase", "reply"] {
        let kind = kind_of(kind)?;
        let found = fail_copies(&copying, kind)?;
        tell_swept(found, kind_text(kind), good, out)?;
    }
    out.push_str("  of the source:\n")?;
    tell_swept(fail_sources(&copying)?, "reads", good, out)?;
    Ok(())
}

/// Lets each call of a kind fail in turn.
pub fn fail(steps: &Steps, words: &[&str], out: &mut String) -> Result<(), Trouble> {
    let good =
        "where one fails the run ends, and a check leaves a front of the steps and two free blocks";
    for at in 1..words.len() {
        let kind = kind_of(word(words, at)?)?;
        tell_swept(fail_each(steps, kind)?, kind_text(kind), good, out)?;
    }
    Ok(())
}
