//! Random scripts of all calls, drawn from a seed.
use crate::drawn::{add, add_named, name_of};
use crate::{Trouble, letters};
use nor_core::draw;
use std::alloc::Global;

// Flags of openings: of reading, of writing too, at the end, directly, to make the file, to make it anew, to empty it, and some that are none.
const FLAGS: [u32; 16] = [
    8, 40, 24, 28, 28, 29, 25, 17, 56, 61, 20, 76, 30, 18, 10, 136,
];

// Adds an opening of a name of the pool.
fn add_open(alloc: Global, script: &mut String, number: u64, flags: u32) -> Result<(), Trouble> {
    let name = name_of(alloc, number)?;
    add(script, format!(in alloc; "open {name} {flags}")?.as_str())
}

// A descriptor: of eight, seven are one of the first two.
fn fd_of(x: &mut u64) -> u64 {
    let number = draw(x) % 8;
    match number {
        0 => draw(x) % 5,
        _ => 1 + number % 2,
    }
}

// Adds a read. Of four, one is of many bytes.
fn add_read(alloc: Global, script: &mut String, x: &mut u64) -> Result<(), Trouble> {
    let fd = fd_of(x);
    let count = match draw(x) % 4 {
        0 => 1024,
        _ => draw(x) % 300,
    };
    add(script, format!(in alloc; "read {fd} {count}")?.as_str())
}

// Adds a seek, near the place from which it counts or far from it.
fn add_seek(alloc: Global, script: &mut String, x: &mut u64) -> Result<(), Trouble> {
    let fd = fd_of(x);
    let so_far = match draw(x) % 4 {
        0 => (draw(x) % 30000) as i64,
        1 => (draw(x) % 700) as i64,
        _ => (draw(x) % 40) as i64,
    };
    let (offset, from) = match draw(x) % 4 {
        0 => (so_far, "set"),
        1 => (so_far - 300, "cur"),
        _ => (3 - so_far, "end"),
    };
    add(
        script,
        format!(in alloc; "seek {fd} {offset} {from}")?.as_str(),
    )
}

// Adds a rename of one name of the pool to another.
fn add_rename(alloc: Global, script: &mut String, old: u64, new: u64) -> Result<(), Trouble> {
    let old = name_of(alloc, old)?;
    let new = name_of(alloc, new)?;
    add(script, format!(in alloc; "rename {old} {new}")?.as_str())
}

// Adds a write of so many letters.
fn add_letters(alloc: Global, script: &mut String, fd: u64, count: u64) -> Result<(), Trouble> {
    let bytes = letters(alloc, count as usize, count as usize)?;
    let Ok(text) = str::from_utf8(&bytes) else {
        return Err(Trouble::Text);
    };
    add(script, format!(in alloc; "write {fd} {text}")?.as_str())
}

// Adds a write of many letters, or some writes of few through one descriptor.
fn add_writes(alloc: Global, script: &mut String, x: &mut u64) -> Result<(), Trouble> {
    let fd = fd_of(x);
    if draw(x) % 4 == 0 {
        return add_letters(alloc, script, fd, draw(x) % 900 + 1);
    }
    for _ in 0..draw(x) % 4 + 1 {
        add_letters(alloc, script, fd, draw(x) % 12 + 1)?;
    }
    Ok(())
}

// Adds a fill, of few bytes or of many.
fn add_fill(alloc: Global, script: &mut String, x: &mut u64) -> Result<(), Trouble> {
    let fd = fd_of(x);
    let count = match draw(x) % 4 {
        0 => draw(x) % 3000,
        _ => draw(x) % 130,
    };
    add(script, format!(in alloc; "fill {fd} {count} 2A")?.as_str())
}

// Adds a truncate, to a small size or to any.
fn add_truncate(alloc: Global, script: &mut String, x: &mut u64) -> Result<(), Trouble> {
    let fd = fd_of(x);
    let size = match draw(x) % 4 {
        0 => 0,
        1 => draw(x) % 6000,
        _ => draw(x) % 400,
    };
    add(script, format!(in alloc; "truncate {fd} {size}")?.as_str())
}

// Adds a setting of four meta bytes, by a name of the pool.
fn add_meta(alloc: Global, script: &mut String, number: u64) -> Result<(), Trouble> {
    let name = name_of(alloc, number)?;
    let digits = number % 900 + 100;
    add(script, format!(in alloc; "meta {name} m{digits}")?.as_str())
}

// Adds a call of a name or of the volume.
fn add_named_call(alloc: Global, script: &mut String, x: &mut u64) -> Result<(), Trouble> {
    let number = draw(x) % 12;
    match draw(x) % 8 {
        0 => add_named(alloc, script, "create", number),
        1 => add_named(alloc, script, "remove", number),
        2 => add_named(alloc, script, "stat", number),
        3 => add(script, format!(in alloc; "next {}", number % 6)?.as_str()),
        4 => add_rename(alloc, script, number, draw(x) % 12),
        5 => add_meta(alloc, script, number),
        6 => add(script, "gc"),
        _ => add(script, "info"),
    }
}

// Adds a call of a descriptor that tells no bytes and writes none.
fn add_small_call(alloc: Global, script: &mut String, x: &mut u64) -> Result<(), Trouble> {
    let fd = fd_of(x);
    let (verb, rest) = match draw(x) % 8 {
        0 => ("close", ""),
        1 => ("fremove", ""),
        2 => ("flush", ""),
        3 => ("fstat", ""),
        4 => ("fmeta", " %00x%FFy"),
        _ => ("tell", ""),
    };
    add(script, format!(in alloc; "{verb} {fd}{rest}")?.as_str())
}

// Adds an opening. Most are of names that a script begins with.
fn add_opening(alloc: Global, script: &mut String, x: &mut u64) -> Result<(), Trouble> {
    let near = draw(x) % 4;
    let number = match near {
        0 => draw(x) % 12,
        _ => 4 + near,
    };
    add_open(alloc, script, number, FLAGS[(draw(x) % 16) as usize])
}

// Adds a call.
fn add_drawn(alloc: Global, script: &mut String, x: &mut u64) -> Result<(), Trouble> {
    match draw(x) % 16 {
        0..=2 => add_named_call(alloc, script, x),
        3 | 4 => add_small_call(alloc, script, x),
        5 | 6 => add_opening(alloc, script, x),
        7 | 8 => add_seek(alloc, script, x),
        9 | 10 => add_read(alloc, script, x),
        11 => add_fill(alloc, script, x),
        12 => add_truncate(alloc, script, x),
        _ => add_writes(alloc, script, x),
    }
}

/// An opening of the file `f6` for reading and writing, and so many calls of all kinds.
pub fn draw_calls(alloc: Global, seed: u64, calls: u64) -> Result<String, Trouble> {
    let mut x = seed;
    let mut script = String::new(alloc);
    add_open(alloc, &mut script, 6, 24)?;
    for _ in 0..calls {
        add_drawn(alloc, &mut script, &mut x)?;
    }
    Ok(script)
}
