//! Runs cases of scripts on volumes in memory. Standard input tells the cases, and how they are written; of each its lines are
//! printed with the replies. A line that isn't understood is told with its number, and the status is 1.
#![tactic(auto)]

mod case;
mod chip;
mod choices;
mod commands;
mod input;
mod script;
mod sweeps;
mod words;

use input::{Line, cases_of};
use std::io;
use std::process::ExitCode;

/// The status where a line isn't understood.
const NOT_UNDERSTOOD: u8 = 1;

/// The status where the input can't be read or is no text, or the output can't be written.
const NO_STREAM: u8 = 2;

// Runs a case and prints what came of it. Answers whether each line was understood.
fn show_case(rt: &HostRuntime, lines: &[Line<'_>]) -> io::Result<bool> {
    let mut out = String::new(rt.alloc());
    let is_good = match case::run_case(rt.alloc(), lines, &mut out) {
        Ok(is_good) => is_good,
        Err(_) => false,
    };
    rt.print(out.as_str())?;
    Ok(is_good)
}

// Runs the cases of a text, and answers whether each line was understood.
fn show_cases(rt: &HostRuntime, text: &str) -> io::Result<bool> {
    let mut is_good = true;
    for lines in cases_of(rt.alloc(), text)?.iter() {
        is_good &= show_case(rt, lines)?;
    }
    Ok(is_good)
}

// Reads the cases, runs them, and answers the status.
fn start(rt: &HostRuntime) -> io::Result<u8> {
    let text = io::read_to_string(rt.alloc(), rt.reader())?;
    if show_cases(rt, text.as_str())? {
        Ok(0)
    } else {
        Ok(NOT_UNDERSTOOD)
    }
}

fn main(rt: HostRuntime) -> ExitCode {
    let status = match start(&rt) {
        Ok(status) => status,
        Err(why) => {
            // (if standard error fails too there is nobody to tell)
            let _said = eprintln!(rt; "script_rows: {why}");
            NO_STREAM
        }
    };
    ExitCode::from(status)
}
