// What a line of a script is.
ghost use Rattle.std.specs.Prelude.{◌≡◌, ◌≤◌, length, IfOk};
ghost use Rattle.call_script.specs.Lines.{words};
ghost use Rattle.promise_model.specs.Lines.{name_of as the_name, names_of as the_names, promise_on, promise_on_one, promised_on, promised};
ghost use Rattle.promise_model.specs.Lines.{is_marked as the_mark, sort_of};
ghost use Rattle.plain_promise.specs.Seen.{name_seen, names_seen, marked_seen, line_seen};

use crate::words::{first_word, is_word};
use call_script::parse_line;
use promise_model::Form;
use std::alloc::{AllocError, Global};
use table_model::Call;

// A line `#!`: a promise on names, the end of those that are `first`, or none of the forms.
#[derive(Drop)]
pub(crate) enum Marked {
    Promise(Form, Vec<Vec<u8>>),
    End,
    Bad,
}

// A line: empty or a comment, a call, a line `#!`, or outside the grammar.
#[derive(Drop)]
pub(crate) enum Line<'a> {
    Blank,
    Call(Call<'a>),
    Marked(Marked),
    Bad,
}

// The name that a word spells: that of the file which the line `create WORD` makes.
#[tactic(auto, unfolding(promise_model::specs::Lines::name_of))]
fn name_of(alloc: Global, word: &[u8]) -> Result<Option<Vec<u8>>, AllocError>
    ensures { IfOk result (λ name. name_seen name ≡ the_name word.now) }
{
    let mut line = Vec::from_slice(alloc, b"create ")?;
    line.extend_from_slice(word)?;
    let mut scratch = [0; 4096];
    match parse_line(line.as_slice(), &mut scratch) {
        Ok(Some(Call::Create { name })) => Ok(Some(Vec::from_slice(alloc, name)?)),
        _ => Ok(None),
    }
}

// The names that the words of a text spell, if each spells one.
#[tactic(auto, using(crate::proofs::Naming::names_stop, crate::proofs::Naming::names_more, crate::proofs::Naming::names_begin, crate::proofs::Naming::seen_push))]
fn names_of(alloc: Global, text: &[u8]) -> Result<Option<Vec<Vec<u8>>>, AllocError>
    ensures { IfOk result (λ names. names_seen names ≡ the_names (words text.now)) }
{
    let mut names = Vec::new(alloc);
    let mut rest = Some(text);
    while let Some(line) = rest {
        let (word, behind) = first_word(line);
        match name_of(alloc, word)? {
            None => return Ok(None),
            Some(name) => names.push(name)?,
        }
        rest = behind;
    }
    Ok(Some(names))
}

// A promise on names, if they were spelled.
fn promise_of(form: Form, names: Option<Vec<Vec<u8>>>) -> Marked
    ensures { marked_seen result ≡ promise_on form (names_seen names) }
{
    match names {
        Some(names) => Marked::Promise(form, names),
        None => Marked::Bad,
    }
}

// A promise on one name.
fn promise_of_one(names: Option<Vec<Vec<u8>>>) -> Marked
    ensures { marked_seen result ≡ promise_on_one (names_seen names) }
{
    match names {
        Some(names) => {
            if names.len() == 1 {
                Marked::Promise(Form::Kept, names)
            } else {
                Marked::Bad
            }
        }
        None => Marked::Bad,
    }
}

// The promise of a form's word and the words of a text.
fn promise_in(alloc: Global, form: &[u8], names: &[u8]) -> Result<Marked, AllocError>
    ensures { IfOk result (λ marked. marked_seen marked ≡ promised_on form.now (words names.now)) }
{
    if is_word(form, b"first") {
        return Ok(promise_of(Form::First, names_of(alloc, names)?));
    }
    if is_word(form, b"some") {
        return Ok(promise_of(Form::Any, names_of(alloc, names)?));
    }
    if is_word(form, b"kept") {
        return Ok(promise_of_one(names_of(alloc, names)?));
    }
    Ok(Marked::Bad)
}

// What a line `#!` says.
#[tactic(auto, unfolding(promise_model::specs::Lines::promised))]
fn marked_in(alloc: Global, line: &[u8]) -> Result<Marked, AllocError>
    ensures { IfOk result (λ marked. marked_seen marked ≡ promised (words line.now)) }
{
    let (mark, rest) = first_word(line);
    if !is_word(mark, b"#!") {
        return Ok(Marked::Bad);
    }
    let Some(rest) = rest else {
        return Ok(Marked::Bad);
    };
    let (form, names) = first_word(rest);
    match names {
        Some(names) => promise_in(alloc, form, names),
        None => {
            if is_word(form, b"end") {
                Ok(Marked::End)
            } else {
                Ok(Marked::Bad)
            }
        }
    }
}

// Whether a line begins with `#!`.
fn is_marked(line: &[u8]) -> bool
    ensures { result ≡ the_mark line.now }
{
    match line {
        [first, second, ..] => *first == b'#' && *second == b'!',
        _ => false,
    }
}

// What a line is. The names and texts of a call stand in `scratch`. Wants memory for the names of a promise.
#[tactic(auto, unfolding(promise_model::specs::Lines::sort_of))]
pub(crate) fn line_of<'a>(
    alloc: Global,
    text: &[u8],
    scratch: &'a mut [u8],
) -> Result<Line<'a>, AllocError>
    requires { 4096 ≤ length scratch.old }
    ensures { IfOk result (λ line. line_seen line ≡ sort_of text.now) }
{
    match parse_line(text, scratch) {
        Ok(Some(call)) => Ok(Line::Call(call)),
        Ok(None) => {
            if is_marked(text) {
                Ok(Line::Marked(marked_in(alloc, text)?))
            } else {
                Ok(Line::Blank)
            }
        }
        Err(_) => Ok(Line::Bad),
    }
}
