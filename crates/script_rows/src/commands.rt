//! Commands on the chip of a case, and what they tell.
use crate::chip::Chip;
use crate::script::Script;
use crate::words::{number, word};
use nor_memory::CallKind;
use script_bench::{Bench, CopyFault, Fault, Told, Trouble, are_same, count_calls, table};
use std::alloc::Global;

/// How a command is given, and what is asked of it.
#[derive(Drop)]
pub struct Manner {
    fault: Fault,
    // Whether the last line of the script has no end.
    is_unended: bool,
    // The kinds of calls of the device that are counted.
    counted: Vec<CallKind>,
}

/// A kind of calls of the device.
pub fn kind_of(text: &str) -> Result<CallKind, Trouble> {
    Ok(match text {
        "read" => CallKind::Read,
        "program" => CallKind::Program,
        "erase" => CallKind::Erase,
        "reply" => CallKind::Say,
        _ => return Err(Trouble::Line),
    })
}

/// A kind of calls in words, where there are many.
pub fn kind_text(kind: CallKind) -> &'static str {
    match kind {
        CallKind::Read => "reads",
        CallKind::Program => "programs",
        CallKind::Erase => "erases",
        CallKind::Say => "replies",
    }
}

// What is to fail, of the words behind `fail`.
fn fault_of(words: &[&str]) -> Result<Fault, Trouble> {
    let nth = number(words, 2, u64::MAX)?;
    Ok(match word(words, 1)? {
        "script" => Fault::Script { nth },
        "folder" => Fault::Folder { nth },
        kind => Fault::Call {
            kind: kind_of(kind)?,
            nth,
        },
    })
}

impl Manner {
    /// The manner that the words behind a command tell.
    pub fn of_words(alloc: Global, words: &[&str]) -> Result<Manner, Trouble> {
        let mut manner = Manner {
            fault: Fault::Nothing,
            is_unended: false,
            counted: Vec::new(alloc),
        };
        let rest = words.get(1..).unwrap_or(&[]);
        match rest.first().copied() {
            None => {}
            Some("unended") => manner.is_unended = true,
            Some("fail") => manner.fault = fault_of(rest)?,
            Some("cut") => {
                manner.fault = Fault::Power {
                    passed: number(rest, 1, u64::MAX)?,
                    pick: number(rest, 2, u64::MAX)?,
                };
            }
            Some("count") => {
                for text in rest.iter().skip(1) {
                    manner.counted.push(kind_of(text)?)?;
                }
            }
            Some(_) => return Err(Trouble::Line),
        }
        Ok(manner)
    }

    // Takes the end off the last line of a script, if that is to be.
    fn ended<'s>(&self, script: &'s str) -> &'s str {
        match script.strip_suffix('\n') {
            Some(text) if self.is_unended => text,
            _ => script,
        }
    }

    // Tells how many calls of each kind that is counted a command asks for.
    fn tell_counts(
        &self,
        bench: &Bench,
        command: &str,
        image: &[u8],
        script: &str,
        out: &mut String,
    ) -> Result<(), Trouble> {
        for kind in self.counted.iter() {
            let count = count_calls(bench, command, image, script.as_bytes(), *kind)?;
            write!(out, "  {count} {}\n", kind_text(*kind))?;
        }
        Ok(())
    }
}

// What is to fail in a copy, of the words behind its name.
fn copy_fault(alloc: Global, words: &[&str]) -> Result<CopyFault, Trouble> {
    if words.get(1).copied() == Some("fail") && words.get(2).copied() == Some("source") {
        return Ok(CopyFault::Source {
            nth: number(words, 3, u64::MAX)?,
        });
    }
    Ok(CopyFault::Target(Manner::of_words(alloc, words)?.fault))
}

/// Copies the chip's volume onto the other one, and tells what was said, the status, and whether the other chip is as before. The copy's own
/// words are those that are given, if any are.
pub fn copy(
    alloc: Global,
    chip: &mut Chip,
    words: &[&str],
    command: Option<&str>,
    out: &mut String,
) -> Result<(), Trouble> {
    let copying = chip.copying()?;
    let fault = copy_fault(alloc, words)?;
    let ran = match command {
        Some(command) => copying.give(command, fault)?,
        None => copying.give(&copying.words()?, fault)?,
    };
    for line in text_of(&ran)?.lines() {
        write!(out, "  {line}\n")?;
    }
    write!(out, "  status {}", ran.status)?;
    if ran.image.as_slice() == copying.target_image {
        out.push_str(", other as before")?;
    }
    out.push('\n')?;
    chip.put_other(ran.image);
    Ok(())
}

// What was said as lines, those of a script's replies apart from a closing line.
fn parted(alloc: Global, said: &str) -> Result<(Vec<&str>, Vec<&str>), Trouble> {
    let mut replies = Vec::new(alloc);
    let mut closing = Vec::new(alloc);
    for line in said.lines() {
        if line.starts_with("! ") {
            closing.push(line)?;
        } else {
            replies.push(line)?;
        }
    }
    Ok((replies, closing))
}

// Whether the files of two images are the same, by the plain program.
fn has_same_files(bench: &Bench, old: &[u8], new: &[u8]) -> Result<bool, Trouble> {
    let files = table(bench.alloc, &bench.g, old)?;
    Ok(are_same(&files, &table(bench.alloc, &bench.g, new)?))
}

// Tells the status of a command, and what it left.
fn tell_status(
    chip: &Chip,
    ran: &Told,
    keeps_files: bool,
    out: &mut String,
) -> Result<(), Trouble> {
    write!(out, "  status {}", ran.status)?;
    if ran.image.as_slice() == chip.image.as_slice() {
        out.push_str(", chip as before")?;
    } else if keeps_files && has_same_files(&chip.bench()?, &chip.image, &ran.image)? {
        out.push_str(", files as before")?;
    }
    out.push('\n')?;
    Ok(())
}

// The text that was said.
fn text_of(ran: &Told) -> Result<&str, Trouble> {
    str::from_utf8(&ran.said).map_err(|_| Trouble::Text)
}

// Tells what a command said: a run's replies beside the lines of its script.
fn tell_said(
    bench: &Bench,
    is_run: bool,
    script: &Script<'_>,
    said: &str,
    out: &mut String,
) -> Result<(), Trouble> {
    let (replies, closing) = parted(bench.alloc, said)?;
    if is_run {
        script.tell(&replies, out)?;
    } else {
        for line in replies.iter() {
            write!(out, "  {line}\n")?;
        }
    }
    for line in closing.iter() {
        write!(out, "  {line}\n")?;
    }
    if !said.is_empty() && !said.ends_with('\n') {
        out.push_str("  (its last line has no end)\n")?;
    }
    Ok(())
}

/// Gives the command of these words on a chip, with a script, and tells the replies and the status.
pub fn give(
    chip: &mut Chip,
    command: &str,
    manner: &Manner,
    script: &Script<'_>,
    text: &str,
    out: &mut String,
) -> Result<(), Trouble> {
    let bench = chip.bench()?;
    let text = manner.ended(text);
    let ran = bench.give_over(
        command,
        &chip.image,
        text.as_bytes(),
        &mut chip.folder,
        manner.fault,
    )?;
    let is_run = command.starts_with("run ");
    tell_said(&bench, is_run, script, text_of(&ran)?, out)?;
    manner.tell_counts(&bench, command, &chip.image, text, out)?;
    let keeps_files = command.starts_with("check ")
        || command.starts_with("scrub ")
        || command.starts_with("map ");
    tell_status(chip, &ran, keeps_files, out)?;
    chip.image = ran.image;
    Ok(())
}
