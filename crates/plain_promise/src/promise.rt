// Promises, and whether a table keeps them.
ghost use Rattle.std.specs.Prelude.{◌≡◌, ◌↔◌, map, IsTrue};
ghost use Rattle.plain_table.specs.Seen.{file};
ghost use Rattle.promise_model.specs.Promises.{Keeps};
ghost use Rattle.promise_model.specs.Verdicts.{Finds};
ghost use Rattle.plain_promise.specs.Seen.{promise};

use crate::value::{has_bytes, is_there};
use plain_table::PlainFile;
use promise_model::Form;

// A promise: its line, its form and its names, the bytes of the first of them that is there at its line, and those at its end.
#[derive(Drop)]
pub(crate) struct PlainPromise {
    pub(crate) line: u32,
    pub(crate) form: Form,
    pub(crate) names: Vec<Vec<u8>>,
    pub(crate) here: Option<Vec<u8>>,
    pub(crate) there: Option<Vec<u8>>,
}

// Whether a table keeps a promise.
#[tactic(auto, unfolding(promise_model::specs::Promises::Keeps))]
fn keeps(p: &PlainPromise, files: &[PlainFile]) -> bool
    ensures { IsTrue result ↔ Keeps (promise p.now) (map file files.now) }
{
    let names = p.names.as_slice();
    match p.form {
        Form::First => has_bytes(names, files, &p.here) || has_bytes(names, files, &p.there),
        Form::Any => is_there(names, files),
        Form::Kept => is_there(names, files) && has_bytes(names, files, &p.here),
    }
}

// The line of the first promise that a table doesn't keep.
pub(crate) fn first_broken(promises: &[PlainPromise], files: &[PlainFile]) -> Option<u32>
    ensures { Finds (map promise promises.now) (map file files.now) result }
{
    for p in promises.iter() {
        if !keeps(p, files) {
            return Some(p.line);
        }
    }
    None
}
