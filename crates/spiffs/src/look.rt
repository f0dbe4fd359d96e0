//! A look at the volume before a command that removes damaged files for good, or tells what `run` would do.
use crate::words::{foretells, word};
use call_script::parse_number;
use flash_view::View;
use geometry::{Geometry, MagicKind};
use meta_guess::{Guess, count_files, guess_if_damaged};
use nor_core::{Failed, Nor};
use std::fmt;
use tool_parts::Buffers;
use vol_mount::{MountErr, ReaderLent, accept_reader, mount};

/// What a volume holds before the command.
#[derive(Clone, Copy, Debug, PartialEq, Eq)]
pub struct Seen {
    /// How many ids are damaged.
    pub damaged: u32,
    /// How many files are whole, where ids are damaged, or the volume is a `plain` one.
    pub whole: u32,
    /// Where another META reads more whole files.
    pub better: Option<Better>,
}

/// Another META, by which more files are whole.
#[derive(Clone, Copy, Debug, PartialEq, Eq)]
pub struct Better {
    /// The META that was given.
    pub given: u32,
    /// What it reads, and what the better one does.
    pub guess: Guess,
    /// Whether the command removes damaged files for good.
    pub removes: bool,
}

impl fmt::Display for Better {
    fn fmt<W: fmt::Write>(&self, f: &mut fmt::Formatter<W>) -> fmt::Result {
        let given = self.given;
        let Guess {
            given: was,
            meta,
            best,
        } = self.guess;
        let whole = was.whole;
        let more = best.whole;
        let lost = was.damaged;
        write!(
            f,
            "whole files: {whole} with META {given}, {more} with META {meta}; nothing was written; "
        )?;
        let what = if self.removes {
            "remove"
        } else {
            "go on without"
        };
        let end = if self.removes { " for good" } else { "" };
        write!(
            f,
            "try META {meta}, or with --force {what} {lost} damaged files{end}"
        )
    }
}

// The word at a place as a number.
fn number(words: &[String], at: usize) -> Option<u32> {
    let number = parse_number(word(words, at).as_bytes(), u64::from(u32::MAX))?;
    u32::try_from(number).ok()
}

/// The numbers of the volume.
pub fn geometry_of(words: &[String]) -> Option<Geometry> {
    let page = number(words, 1)?;
    let block = number(words, 2)?;
    let blocks = number(words, 3)?;
    let meta = number(words, 4)?;
    let magic = match word(words, 5) {
        "plain" => MagicKind::Plain,
        _ => MagicKind::Length,
    };
    Geometry::new(page, block, blocks, block, meta, magic).ok()
}

// Whether the volume mounts in the lent memory.
fn is_mounted<N: Nor>(
    g: &Geometry,
    nor: &mut N,
    lent: &mut ReaderLent<'_>,
) -> Result<bool, Failed> {
    let Ok(()) = accept_reader(g, nor, lent) else {
        return Ok(false);
    };
    let mut v = View::new(*g, nor, lent.work, &mut [], lent.cache);
    match mount(&mut v) {
        Ok(()) => Ok(true),
        Err(MountErr::DeviceFault) => Err(Failed),
        Err(MountErr::NotAFs { .. }) => Ok(false),
    }
}

// What a guess tells, where that META was given.
fn seen_by(given: u32, guess: Guess, removes: bool) -> Seen {
    let better = if guess.best.whole > guess.given.whole {
        Some(Better {
            given,
            guess,
            removes,
        })
    } else {
        None
    };
    Seen {
        damaged: guess.given.damaged,
        whole: guess.given.whole,
        better,
    }
}

// How many files are whole, where no id is damaged: asked where a row of more blocks may begin there too, that is of a `plain` volume.
fn whole_of<N: Nor>(g: &Geometry, nor: &mut N, lent: &mut ReaderLent<'_>) -> Result<u32, Failed> {
    if g.magic != MagicKind::Plain {
        return Ok(0);
    }
    let Ok(()) = accept_reader(g, nor, lent) else {
        return Ok(0);
    };
    let counts = count_files(g, nor, lent.work, lent.cache, lent.check)?;
    Ok(counts.whole)
}

// Looks at a volume that mounts; where the command is forced, no other META is tried.
fn look_at<N: Nor>(
    g: &Geometry,
    is_forced: bool,
    removes: bool,
    nor: &mut N,
    lent: &mut ReaderLent<'_>,
) -> Result<Option<Seen>, Failed> {
    let Ok(()) = accept_reader(g, nor, lent) else {
        return Ok(None);
    };
    if is_forced {
        let counts = count_files(g, nor, lent.work, lent.cache, lent.check)?;
        return Ok(Some(Seen {
            damaged: counts.damaged,
            whole: counts.whole,
            better: None,
        }));
    }
    let found = guess_if_damaged(g, nor, lent.work, lent.cache, lent.check)?;
    Ok(Some(match found {
        Some(guess) => seen_by(g.meta(), guess, removes),
        None => Seen {
            damaged: 0,
            whole: whole_of(g, nor, lent)?,
            better: None,
        },
    }))
}

// Whether the words are a command that isn't refused, and is guarded.
fn is_looked_at<N: Nor>(words: &[String], nor: &N, bufs: &Buffers<'_>) -> bool {
    let unit = nor.unit();
    let size = nor.size();
    match word(words, 0) {
        "run" | "check" | "scrub" | "map" => tool_core::is_accepted(words, unit, size, bufs),
        "trace" => trace_tool::is_accepted(words, unit, size, bufs),
        "rehearse" => rehearse_tool::is_accepted(words, unit, size, bufs),
        _ => false,
    }
}

/// Looks at the volume, where the words are a command that removes damaged files or tells what `run` would do, which isn't refused, and the
/// volume mounts. Nothing is written.
pub fn look_before<N: Nor>(
    words: &[String],
    is_forced: bool,
    nor: &mut N,
    bufs: &mut Buffers<'_>,
) -> Result<Option<Seen>, Failed> {
    if !is_looked_at(words, nor, bufs) {
        return Ok(None);
    }
    look_on(words, is_forced, !foretells(words), nor, bufs)
}

/// Looks at the volume of the numbers that stand behind the first word, where it mounts, before a command that removes damaged files for good or
/// not. Nothing is written.
pub fn look_on<N: Nor>(
    words: &[String],
    is_forced: bool,
    removes: bool,
    nor: &mut N,
    bufs: &mut Buffers<'_>,
) -> Result<Option<Seen>, Failed> {
    let Some(g) = geometry_of(words) else {
        return Ok(None);
    };
    let mut lent = ReaderLent {
        work: &mut *bufs.work,
        cache: &mut *bufs.cache,
        check: &mut *bufs.check,
    };
    if !is_mounted(&g, nor, &mut lent)? {
        return Ok(None);
    }
    look_at(&g, is_forced, removes, nor, &mut lent)
}
