//! The lines of the input, and the cases that they are.
use std::alloc::{AllocError, Global};

/// A line of the input: its number, from 1, and its text.
#[derive(Clone, Copy)]
pub struct Line<'t> {
    pub number: usize,
    pub text: &'t str,
}

impl Line<'_> {
    /// Whether it is the title of a case.
    pub fn is_title(&self) -> bool {
        self.text.starts_with("# ")
    }

    // Whether it tells nothing: it is empty, or a note.
    fn is_silent(&self) -> bool {
        self.text.is_empty() || self.text.starts_with("//")
    }
}

/// The lines of each case, the first of which is its title. Lines before the first title are a case too.
pub fn cases_of(alloc: Global, text: &str) -> Result<Vec<Vec<Line<'_>>>, AllocError> {
    let mut cases: Vec<Vec<Line<'_>>> = Vec::new(alloc);
    let mut lines = Vec::new(alloc);
    let mut number = 0usize;
    for text in text.lines() {
        number = number.saturating_add(1);
        let line = Line { number, text };
        if line.is_silent() {
            continue;
        }
        if line.is_title() && !lines.is_empty() {
            cases.push(lines)?;
            lines = Vec::new(alloc);
        }
        lines.push(line)?;
    }
    if !lines.is_empty() {
        cases.push(lines)?;
    }
    Ok(cases)
}
