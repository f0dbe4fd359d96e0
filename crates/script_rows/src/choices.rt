//! Cases that are run for several values, and what stands in braces.
use crate::words::{number, number_of, word, words_of};
use script_bench::{Trouble, letters};
use std::alloc::Global;

/// A line `for NAME..: VALUES | VALUES ..`: the names, and one text of values for each run of the case.
#[derive(Drop)]
pub struct Choice<'t> {
    names: &'t str,
    values: Vec<&'t str>,
}

impl<'t> Choice<'t> {
    /// The choice that a text behind `for` spells.
    pub fn of_text(alloc: Global, text: &'t str) -> Result<Choice<'t>, Trouble> {
        let Some((names, values)) = text.split_once(": ") else {
            return Err(Trouble::Line);
        };
        Ok(Choice {
            names,
            values: values.split(" | ").collect(alloc)?,
        })
    }

    /// How many texts of values there are.
    pub fn count(&self) -> usize {
        self.values.len()
    }

    /// The names.
    pub fn names(&self) -> &'t str {
        self.names
    }

    /// The text of values of that number.
    pub fn value(&self, at: usize) -> &'t str {
        self.values.get(at).copied().unwrap_or("")
    }
}

/// Names with their values, which stand for one run of a case. The last name has all words that are left.
#[derive(Clone, Copy)]
pub struct Chosen<'t> {
    pub names: &'t str,
    pub values: &'t str,
}

impl<'t> Chosen<'t> {
    // The value of a name, if this has it.
    fn value_of(&self, wanted: &str) -> Option<&'t str> {
        let mut left = self.values;
        let mut names = self.names;
        for _ in 0..names.len() {
            let (name, others) = match names.split_once(' ') {
                Some((name, others)) => (name, others),
                None => (names, ""),
            };
            let (value, rest) = match left.split_once(' ') {
                Some((value, rest)) if !others.is_empty() => (value, rest),
                _ => (left, ""),
            };
            if name == wanted {
                return Some(value);
            }
            names = others;
            left = rest;
        }
        None
    }
}

// The number of a turn, changed by steps such as `*3`, `+1` and `%7`.
fn count_of(mut steps: &str, turn: u64) -> Result<u64, Trouble> {
    let mut count = turn;
    for _ in 0..steps.len() {
        let Some(first) = steps.as_bytes().first().copied() else {
            break;
        };
        let rest = steps.get(1..).ok_or(Trouble::Line)?;
        let end = rest.find(['*', '+', '%'].as_slice()).unwrap_or(rest.len());
        let by = number_of(rest.get(..end).ok_or(Trouble::Line)?, 0xFFFF_FFFF)?;
        count = match first {
            b'*' => count.saturating_mul(by),
            b'+' => count.saturating_add(by),
            b'%' if by > 0 => count % by,
            _ => return Err(Trouble::Line),
        };
        steps = rest.get(end..).unwrap_or("");
    }
    Ok(count)
}

// What `letters SEED COUNT` stands for.
fn letters_of(alloc: Global, text: &str) -> Result<String, Trouble> {
    let words = words_of(alloc, text)?;
    if word(&words, 0)? != "letters" {
        return Err(Trouble::Line);
    }
    let seed = number(&words, 1, 0xFFFF)? as usize;
    let bytes = letters(alloc, seed, number(&words, 2, 4096)? as usize)?;
    match str::from_utf8(&bytes) {
        Ok(text) => Ok(String::from_str(alloc, text)?),
        Err(_) => Err(Trouble::Text),
    }
}

// What stands for a text in braces: nothing, the value of a name, the number of the turn, or letters.
fn meant_by(
    alloc: Global,
    inner: &str,
    chosen: &[Chosen<'_>],
    turn: u64,
) -> Result<String, Trouble> {
    for one in chosen {
        if let Some(value) = one.value_of(inner) {
            return Ok(String::from_str(alloc, value)?);
        }
    }
    if inner.is_empty() {
        return Ok(String::new(alloc));
    }
    if let Some(steps) = inner.strip_prefix('n') {
        return Ok(format!(in alloc; "{}", count_of(steps, turn)?)?);
    }
    letters_of(alloc, inner)
}

/// A text with what stands for each text in braces, the innermost first.
pub fn spelled_out(
    alloc: Global,
    text: &str,
    chosen: &[Chosen<'_>],
    turn: u64,
) -> Result<String, Trouble> {
    let mut done = String::from_str(alloc, text)?;
    for _ in 0..text.len() {
        let Some((front, back)) = done.as_str().split_once('}') else {
            break;
        };
        let Some((head, inner)) = front.rsplit_once('{') else {
            return Err(Trouble::Line);
        };
        let meant = meant_by(alloc, inner, chosen, turn)?;
        done = format!(in alloc; "{head}{meant}{back}")?;
    }
    Ok(done)
}
