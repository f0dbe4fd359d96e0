//! Random scripts of calls by name, drawn from a seed.
use crate::Trouble;
use nor_core::draw;
use std::alloc::Global;

// Some names, as a script spells them. The first two are refused.
const NAMES: [&str; 4] = [
    "x%00y",
    "12345678901234567890123456789012",
    "1234567890123456789012345678901",
    "%20%25a%fF%zz",
];

/// A name of the pool, as a script spells it.
pub(crate) fn name_of(alloc: Global, number: u64) -> Result<String, Trouble> {
    Ok(match NAMES.get(number as usize) {
        Some(name) => String::from_str(alloc, name)?,
        None => format!(in alloc; "f{number}")?,
    })
}

/// Adds a line.
pub(crate) fn add(script: &mut String, line: &str) -> Result<(), Trouble> {
    script.push_str(line)?;
    script.push('\n')?;
    Ok(())
}

/// Adds a call by a name of the pool.
pub(crate) fn add_named(
    alloc: Global,
    script: &mut String,
    verb: &str,
    number: u64,
) -> Result<(), Trouble> {
    let name = name_of(alloc, number)?;
    add(script, format!(in alloc; "{verb} {name}")?.as_str())
}

// Adds a call by name or of the volume. Of eight draws, so many are creates.
fn add_drawn(alloc: Global, script: &mut String, x: &mut u64, creates: u64) -> Result<(), Trouble> {
    let number = draw(x) % 30;
    let kind = draw(x) % 8;
    let after = draw(x) % 32;
    match kind {
        _ if kind < creates => add_named(alloc, script, "create", number),
        4 | 5 => add_named(alloc, script, "remove", number),
        6 => add_named(alloc, script, "stat", number),
        7 if after % 4 == 0 => add(script, "info"),
        7 if after % 16 == 1 => add(script, "gc"),
        _ => add(script, format!(in alloc; "next {after}")?.as_str()),
    }
}

/// So many calls by thirty names and of the volume.
pub fn draw_files(alloc: Global, seed: u64, calls: u64) -> Result<String, Trouble> {
    let mut x = seed;
    let mut script = String::new(alloc);
    for _ in 0..calls {
        add_drawn(alloc, &mut script, &mut x, 3 + seed % 3)?;
    }
    Ok(script)
}

/// So many creates and removes of eight names, and some other calls.
pub fn draw_beside(alloc: Global, seed: u64, calls: u64) -> Result<String, Trouble> {
    let mut x = seed;
    let mut script = String::new(alloc);
    for _ in 0..calls {
        let number = 4 + draw(&mut x) % 8;
        match draw(&mut x) % 16 {
            0..=6 => add_named(alloc, &mut script, "create", number)?,
            7..=12 => add_named(alloc, &mut script, "remove", number)?,
            13 => add_named(alloc, &mut script, "stat", number)?,
            14 => add(&mut script, "info")?,
            _ => add(&mut script, "gc")?,
        }
    }
    Ok(script)
}
