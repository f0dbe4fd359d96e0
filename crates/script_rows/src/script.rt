//! The scripts of cases, and the replies that they got.
use crate::choices::{Chosen, spelled_out};
use crate::input::Line;
use crate::words::number_of;
use script_bench::{Kept, Steps, Trouble};
use std::alloc::{AllocError, Global};

/// Lines that are given so often, one after the other.
#[derive(Drop)]
struct Block<'t> {
    times: u64,
    // Whether that is told by a line of its own.
    is_told: bool,
    lines: Vec<Spoken<'t>>,
}

/// A line of a script as a case spells it, and how much is surely on the chip once it was answered.
#[derive(Clone, Copy)]
struct Spoken<'t> {
    kept: Kept,
    text: &'t str,
}

/// The script of a part of a case.
#[derive(Drop)]
pub struct Script<'t> {
    blocks: Vec<Block<'t>>,
}

// A line of a script, if it is indented as one: by two spaces, or by a mark and a space.
fn spoken_of(text: &str) -> Option<Spoken<'_>> {
    for (front, kept) in [
        ("  ", Kept::All),
        ("~ ", Kept::Before),
        ("& ", Kept::NoMore),
        ("- ", Kept::NoPage),
    ] {
        if let Some(text) = text.strip_prefix(front) {
            return Some(Spoken { kept, text });
        }
    }
    None
}

// Whether lines spell a call, and so get a reply.
fn is_call(text: &str) -> bool {
    !text.is_empty() && !text.starts_with('#')
}

impl<'t> Script<'t> {
    /// The script that begins a list of lines, and how many of them it has.
    pub fn of_lines(
        alloc: Global,
        lines: &[Line<'t>],
        chosen: &[Chosen<'_>],
    ) -> Result<(Script<'t>, usize), Trouble> {
        let mut blocks: Vec<Block<'t>> = Vec::new(alloc);
        let mut count = 0usize;
        for line in lines {
            let Some(spoken) = spoken_of(line.text) else {
                break;
            };
            count = count.saturating_add(1);
            if let Some(times) = spoken.text.strip_prefix("times ") {
                let times = spelled_out(alloc, times, chosen, 0)?;
                blocks.push(Block {
                    times: number_of(&times, 10_000)?,
                    is_told: true,
                    lines: Vec::new(alloc),
                })?;
            } else {
                add_line(alloc, &mut blocks, spoken)?;
            }
        }
        Ok((Script { blocks }, count))
    }

    /// Its text.
    pub fn text(&self, alloc: Global, chosen: &[Chosen<'_>]) -> Result<String, Trouble> {
        let mut text = String::new(alloc);
        for block in self.blocks.iter() {
            for turn in 0..block.times {
                for line in block.lines.iter() {
                    text.push_str(&spelled_out(alloc, line.text, chosen, turn)?)?;
                    text.push('\n')?;
                }
            }
        }
        Ok(text)
    }

    /// Adds its lines to those of a script whose power is to be cut.
    pub fn add_to(
        &self,
        alloc: Global,
        chosen: &[Chosen<'_>],
        steps: &mut Steps,
    ) -> Result<(), Trouble> {
        for block in self.blocks.iter() {
            for turn in 0..block.times {
                for line in block.lines.iter() {
                    let text = spelled_out(alloc, line.text, chosen, turn)?;
                    steps.add(text.as_bytes(), line.kept)?;
                }
            }
        }
        Ok(())
    }

    /// Tells its lines, each with the replies that it got: those of all that was said.
    pub fn tell(&self, said: &[&str], out: &mut String) -> Result<(), AllocError> {
        let mut from = 0usize;
        for block in self.blocks.iter() {
            if block.is_told {
                tell_times(block.times, out)?;
            }
            let calls = block.lines.iter().filter(|line| is_call(line.text)).count();
            let mut call = from;
            for line in block.lines.iter() {
                out.push_str(if block.is_told { "    " } else { "  " })?;
                out.push_str(line.text)?;
                if is_call(line.text) {
                    tell_replies(said, call, calls, block.times, out)?;
                    call = call.saturating_add(1);
                }
                out.push('\n')?;
            }
            let turns = (block.times as usize).saturating_mul(calls);
            from = from.saturating_add(turns);
        }
        Ok(())
    }
}

// Adds a line to the block that it belongs to: to the last one, where it is indented below the line that tells how often.
fn add_line<'t>(
    alloc: Global,
    blocks: &mut Vec<Block<'t>>,
    spoken: Spoken<'t>,
) -> Result<(), AllocError> {
    if let Some(text) = spoken.text.strip_prefix("  ") {
        if let Some(last) = blocks.last_mut() {
            if last.is_told {
                last.lines.push(Spoken { text, ..spoken })?;
                return Ok(());
            }
        }
    }
    let mut lines = Vec::new(alloc);
    lines.push(spoken)?;
    blocks.push(Block {
        times: 1,
        is_told: false,
        lines,
    })?;
    Ok(())
}

// Tells how often a block is given.
fn tell_times(times: u64, out: &mut String) -> Result<(), AllocError> {
    write!(out, "  times {times}\n")
}

// The reply of that number.
fn reply<'s>(said: &[&'s str], at: usize) -> &'s str {
    said.get(at).copied().unwrap_or("no reply")
}

// Tells the replies that a line of a block got in its turns, those that are the same in turns one after the other once.
fn tell_replies(
    said: &[&str],
    first: usize,
    calls: usize,
    times: u64,
    out: &mut String,
) -> Result<(), AllocError> {
    let mut begin = 0u64;
    let mut before = "";
    for turn in 0..times {
        let here = reply(
            said,
            first.saturating_add((turn as usize).saturating_mul(calls)),
        );
        let behind = turn.saturating_add(1);
        let next = reply(
            said,
            first.saturating_add((behind as usize).saturating_mul(calls)),
        );
        if behind < times && here == next {
            continue;
        }
        write!(out, "{before} -> {here}")?;
        if begin > 0 || behind < times {
            write!(out, " in {begin}")?;
            if begin < turn {
                write!(out, " to {turn}")?;
            }
        }
        before = "\n     ";
        begin = behind;
    }
    Ok(())
}
