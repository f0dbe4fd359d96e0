// Whether each line of a script is in the grammar, and each promise in one of the forms.
ghost use Rattle.std.specs.Prelude.{◌≡◌, ◌+◌, ◌<◌, ◌≤◌, ◌^◌, length, IfOk};
ghost use Rattle.promise_model.specs.Verdicts.{fault_at as the_fault, is_open as the_open, promise_or_none};
ghost use Rattle.plain_promise.specs.Seen.{line_seen, fault_seen};
ghost use Rattle.plain_promise.specs.Walks.{IsChecked};

use crate::lines::next_line;
use crate::sort::{Line, Marked, line_of};
use promise_model::Form;
use std::alloc::{AllocError, Global};

/// What is wrong with a script, by the number of a line from 1.
#[derive(Clone, Copy, Debug, PartialEq, Eq)]
pub enum Fault {
    /// The line is outside the grammar.
    BadLine(u32),
    /// The line begins with `#!`, and is none of the forms of a promise.
    BadPromise(u32),
}

// What was found of the lines of a script: a fault, or how many promises they make.
#[derive(Drop)]
pub(crate) enum Checked {
    Faulty(Fault),
    Fine(u32),
}

// What is wrong with the line of that number. `within` says whether a promise `first` is in force before it.
fn fault_at(within: bool, number: u32, line: &Line<'_>) -> Option<Fault>
    ensures { fault_seen result ≡ the_fault within number (line_seen line.now) }
{
    match line {
        Line::Bad => Some(Fault::BadLine(number)),
        Line::Marked(Marked::Bad) => Some(Fault::BadPromise(number)),
        Line::Marked(Marked::End) => {
            if within {
                None
            } else {
                Some(Fault::BadPromise(number))
            }
        }
        _ => None,
    }
}

// Whether a promise `first` is in force behind a line.
fn is_open(within: bool, line: &Line<'_>) -> bool
    ensures { result ≡ the_open within (line_seen line.now) }
{
    match line {
        Line::Marked(Marked::Promise(Form::First, _)) => true,
        Line::Marked(Marked::End) => false,
        _ => within,
    }
}

// One for a promise, and none for another line.
fn promises_in(line: &Line<'_>) -> u32
    ensures count { result ≡ promise_or_none (line_seen line.now) }
    ensures few { result ≤ 1 }
{
    match line {
        Line::Marked(Marked::Promise(_, _)) => 1,
        _ => 0,
    }
}

// Goes through the lines of a script, up to the first fault.
#[tactic(auto, using(crate::proofs::Checking::seen_first, crate::proofs::Checking::seen_on, crate::proofs::Checking::seen_fault, crate::proofs::Checking::seen_all))]
pub(crate) fn check_lines(alloc: Global, script: &[u8]) -> Result<Checked, AllocError>
    requires { length script.now < 2 ^ 31 }
    ensures { IfOk result (IsChecked script.now) }
{
    let mut at = 0;
    let mut number = 1;
    let mut within = false;
    let mut promises = 0;
    while let Some((text, behind)) = next_line(script, at) {
        let mut scratch = [0; 4096];
        let line = line_of(alloc, text, &mut scratch)?;
        if let Some(fault) = fault_at(within, number, &line) {
            return Ok(Checked::Faulty(fault));
        }
        within = is_open(within, &line);
        promises += promises_in(&line);
        number += 1;
        at = behind;
    }
    Ok(Checked::Fine(promises))
}
