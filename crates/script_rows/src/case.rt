//! Runs of a case.
use crate::chip::Chip;
use crate::choices::{Choice, Chosen, spelled_out};
use crate::commands::{Manner, copy, give};
use crate::input::Line;
use crate::script::Script;
use crate::sweeps;
use crate::words::{byte_of, number, word, words_of};
use script_bench::{Steps, Trouble, cut_once, spare_blocks};
use std::alloc::Global;

/// The most runs of one case.
const MOST_RUNS: usize = 1000;

// A part of a case: its line, that line's words with what stands in braces, and the script below it.
#[derive(Clone, Copy)]
struct Part<'p, 't> {
    line: &'p str,
    words: &'p [&'p str],
    script: &'p Script<'t>,
    chosen: &'p [Chosen<'t>],
}

// The steps of a part whose power is to be cut.
fn steps_of(alloc: Global, chip: &Chip, part: &Part<'_, '_>) -> Result<Steps, Trouble> {
    let image = chip.image.to_vec(alloc)?;
    let mut steps = Steps::new(chip.bench()?, image)?;
    part.script.add_to(alloc, part.chosen, &mut steps)?;
    Ok(steps)
}

// Runs a script on what the run before left, as often as there are numbers, each time cut behind so many calls.
fn cut_in_turn(
    alloc: Global,
    chip: &mut Chip,
    part: &Part<'_, '_>,
    out: &mut String,
) -> Result<(), Trouble> {
    for at in 1..part.words.len() {
        let passed = number(part.words, at, u64::MAX)?;
        let left = cut_once(&steps_of(alloc, chip, part)?, passed)?;
        sweeps::tell_turn(passed, left.is_some(), out)?;
        let Some(ran) = left else {
            break;
        };
        chip.image = ran.image;
    }
    Ok(())
}

// Tells the bytes from a place of the image on.
fn tell_bytes(chip: &Chip, words: &[&str], out: &mut String) -> Result<(), Trouble> {
    let at = number(words, 1, 0xFFFF_FFFF)? as usize;
    let count = number(words, 2, 4096)? as usize;
    out.push_str(" ")?;
    for byte in chip.image.iter().skip(at).take(count) {
        write!(out, " {byte:02X}")?;
    }
    out.push('\n')?;
    Ok(())
}

// Tells how many bytes of the chip have a value.
fn tell_count(chip: &Chip, words: &[&str], out: &mut String) -> Result<(), Trouble> {
    let value = byte_of(word(words, 1)?)?;
    let count = chip.image.iter().filter(|byte| **byte == value).count();
    write!(out, "  {count}\n")?;
    Ok(())
}

// Tells how many blocks are free.
fn tell_free(chip: &Chip, out: &mut String) -> Result<(), Trouble> {
    let free = spare_blocks(&chip.bench()?.g, &chip.image).ok_or(Trouble::Device)?;
    write!(out, "  {free}\n")?;
    Ok(())
}

// Does a part of a case.
fn do_part(
    alloc: Global,
    chip: &mut Chip,
    part: &Part<'_, '_>,
    out: &mut String,
) -> Result<(), Trouble> {
    let text = part.script.text(alloc, part.chosen)?;
    match word(part.words, 0)? {
        command @ ("run" | "list" | "check" | "extract" | "make") => {
            let manner = Manner::of_words(alloc, part.words)?;
            let command = chip.bench()?.words(command)?;
            give(chip, &command, &manner, part.script, &text, out)
        }
        "copy" => copy(alloc, chip, part.words, None, out),
        "copies" => sweeps::copies(chip, out),
        "tool" if part.words.get(1).copied() == Some("copy") => {
            let command = part.line.strip_prefix("tool ").ok_or(Trouble::Line)?;
            copy(alloc, chip, &["copy"], Some(command), out)
        }
        "tool" => {
            let manner = Manner::of_words(alloc, &["tool"])?;
            let command = part.line.strip_prefix("tool ").ok_or(Trouble::Line)?;
            give(chip, command, &manner, part.script, &text, out)
        }
        command @ ("scrub" | "map") => {
            let manner = Manner::of_words(alloc, part.words.get(1..).unwrap_or(&[]))?;
            let number = number(part.words, 1, u64::MAX)?;
            let command = chip.bench()?.numbered_words(command, number)?;
            give(chip, &command, &manner, part.script, &text, out)
        }
        "scrubs" => sweeps::numbered(chip, "scrub", part.words, out),
        "maps" => sweeps::numbered(chip, "map", part.words, out),
        "flat" => sweeps::compare(chip, &text, out),
        "drawn" => sweeps::draw(chip, part.words, out),
        "damaged" => sweeps::damage(chip, part.words, out),
        "cuts" => sweeps::cut(&steps_of(alloc, chip, part)?, out),
        "again" => cut_in_turn(alloc, chip, part, out),
        "recoveries" => sweeps::cut_twice(&steps_of(alloc, chip, part)?, part.words, out),
        "fails" => sweeps::fail(&steps_of(alloc, chip, part)?, part.words, out),
        "bytes" => tell_bytes(chip, part.words, out),
        "count" => tell_count(chip, part.words, out),
        "free" => tell_free(chip, out),
        _ => Err(Trouble::Line),
    }
}

// What is wrong at a line of the input.
#[derive(Drop)]
struct Wrong {
    number: usize,
    why: Trouble,
}

// Whether a part has a script.
fn has_script(verb: &str) -> bool {
    matches!(
        verb,
        "run" | "tool" | "flat" | "cuts" | "again" | "recoveries" | "fails"
    )
}

// Does the part that a line begins, and answers how many lines its script has.
fn do_line<'t>(
    alloc: Global,
    chip: &mut Chip,
    lines: &[Line<'t>],
    chosen: &[Chosen<'t>],
    out: &mut String,
) -> Result<usize, Trouble> {
    let [line, rest @ ..] = lines else {
        return Ok(0);
    };
    let (script, count) = Script::of_lines(alloc, rest, chosen)?;
    let text = spelled_out(alloc, line.text, chosen, 0)?;
    let words = words_of(alloc, &text)?;
    if count > 0 && !has_script(word(&words, 0)?) {
        return Err(Trouble::Line);
    }
    let part = Part {
        line: &text,
        words: &words,
        script: &script,
        chosen,
    };
    if !chip.make(part.words)? {
        chip.begin()?;
        write!(out, "{}\n", line.text)?;
        do_part(alloc, chip, &part, out)?;
    }
    Ok(count)
}

// Does the lines of a case for chosen values.
fn do_lines<'t>(
    alloc: Global,
    lines: &[Line<'t>],
    chosen: &[Chosen<'t>],
    out: &mut String,
) -> Result<(), Wrong> {
    let mut chip = Chip::new(alloc);
    let mut at = 0usize;
    for _ in 0..lines.len() {
        let Some(line) = lines.get(at) else {
            break;
        };
        let rest = lines.get(at..).unwrap_or(&[]);
        match do_line(alloc, &mut chip, rest, chosen, out) {
            Ok(count) => at = at.saturating_add(1).saturating_add(count),
            Err(why) => {
                return Err(Wrong {
                    number: line.number,
                    why,
                });
            }
        }
    }
    Ok(())
}

// The choices that begin a list of lines, one a line.
fn choices_of<'t>(alloc: Global, lines: &[Line<'t>]) -> Result<Vec<Choice<'t>>, Trouble> {
    let mut choices = Vec::new(alloc);
    for line in lines {
        let Some(text) = line.text.strip_prefix("for ") else {
            break;
        };
        choices.push(Choice::of_text(alloc, text)?)?;
    }
    Ok(choices)
}

// The values of one run of a case: those of the last choice change first.
fn chosen_of<'t>(
    alloc: Global,
    choices: &[Choice<'t>],
    run: usize,
) -> Result<Vec<Chosen<'t>>, Trouble> {
    let mut chosen = Vec::new(alloc);
    let mut left = run;
    for choice in choices.iter().rev() {
        let count = choice.count().max(1);
        chosen.push(Chosen {
            names: choice.names(),
            values: choice.value(left % count),
        })?;
        left /= count;
    }
    chosen.reverse();
    Ok(chosen)
}

// How many runs choices ask for.
fn runs_of(choices: &[Choice<'_>]) -> usize {
    let mut runs = 1usize;
    for choice in choices {
        runs = runs.saturating_mul(choice.count());
    }
    runs.min(MOST_RUNS)
}

// Tells the values of a run.
fn tell_chosen(chosen: &[Chosen<'_>], out: &mut String) -> Result<(), Trouble> {
    let mut before = "for ";
    for one in chosen {
        write!(out, "{before}{}: {}", one.names, one.values)?;
        before = ", ";
    }
    if !chosen.is_empty() {
        out.push('\n')?;
    }
    Ok(())
}

// Tells what is wrong at a line.
fn tell_wrong(number: usize, why: &Trouble, out: &mut String) -> Result<(), Trouble> {
    write!(out, "line {number}: {why}\n")?;
    Ok(())
}

/// Runs a case, once for each choice of values, and answers whether each line was understood.
pub fn run_case(alloc: Global, lines: &[Line<'_>], out: &mut String) -> Result<bool, Trouble> {
    let [title, body @ ..] = lines else {
        return Ok(true);
    };
    write!(out, "{}\n", title.text)?;
    if !title.is_title() {
        tell_wrong(title.number, &Trouble::Line, out)?;
        return Ok(false);
    }
    let choices = match choices_of(alloc, body) {
        Ok(choices) => choices,
        Err(why) => {
            tell_wrong(title.number, &why, out)?;
            return Ok(false);
        }
    };
    let parts = body.get(choices.len()..).unwrap_or(&[]);
    let mut is_good = true;
    for run in 0..runs_of(&choices) {
        let chosen = chosen_of(alloc, &choices, run)?;
        tell_chosen(&chosen, out)?;
        if let Err(wrong) = do_lines(alloc, parts, &chosen, out) {
            tell_wrong(wrong.number, &wrong.why, out)?;
            is_good = false;
        }
    }
    out.push('\n')?;
    Ok(is_good)
}
