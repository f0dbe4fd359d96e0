// Looking files up.
ghost use Rattle.std.specs.Prelude.{◌≡◌, ◌<◌, ◌≤◌, ℕ, map, get_or, length, IfSome, IfNone, Some, None};
ghost use Rattle.table_model.specs.Table.{file_named, file_of, file_above, has_name, least_id as the_least_id};
ghost use Rattle.plain_table.specs.Seen.{file};
ghost use Rattle.plain_table.specs.declared.file.PlainFile.{PlainFile};

use crate::PlainFile;

// The file of that name.
#[tactic(auto, unfolding(table_model::specs::Table::file_named), using(crate::proofs::Finding::find_here, crate::proofs::Finding::find_on, crate::proofs::Finding::find_end))]
pub(crate) fn find_name<'a>(files: &'a [PlainFile], name: &[u8]) -> Option<&'a PlainFile>
    ensures found { IfSome result (λ f. file_named name.now (map file files.now) ≡ Some (file f.now)) }
    ensures missing { IfNone result (file_named name.now (map file files.now) ≡ None) }
{
    for f in files.iter() {
        if f.name.as_slice() == name {
            return Some(f);
        }
    }
    None
}

// The file of that id.
#[tactic(auto, unfolding(table_model::specs::Table::file_of), using(crate::proofs::Finding::find_here, crate::proofs::Finding::find_on, crate::proofs::Finding::find_end))]
pub(crate) fn find_id(files: &[PlainFile], id: u16) -> Option<&PlainFile>
    ensures found { IfSome result (λ f. file_of id (map file files.now) ≡ Some (file f.now)) }
    ensures missing { IfNone result (file_of id (map file files.now) ≡ None) }
{
    for f in files.iter() {
        if f.id == id {
            return Some(f);
        }
    }
    None
}

// The file of the least place with an id above that one.
#[tactic(auto, unfolding(table_model::specs::Table::file_above), using(crate::proofs::Finding::find_here, crate::proofs::Finding::find_on, crate::proofs::Finding::find_end))]
pub(crate) fn find_above(files: &[PlainFile], after: u16) -> Option<&PlainFile>
    ensures found { IfSome result (λ f. file_above after (map file files.now) ≡ Some (file f.now)) }
    ensures missing { IfNone result (file_above after (map file files.now) ≡ None) }
{
    for f in files.iter() {
        if f.id > after {
            return Some(f);
        }
    }
    None
}

// The least id from 1 that no file has.
#[tactic(auto, unfolding(table_model::specs::Table::least_id), using(crate::proofs::Ids::least_here, crate::proofs::Ids::least_on, crate::proofs::Ids::least_end))]
pub(crate) fn least_id(files: &[PlainFile]) -> u16
    requires { length files.now < 65534 }
    ensures { result ≡ the_least_id (map file files.now) }
{
    for id in 1..files.len() as u16 + 2 {
        match find_id(files, id) {
            Some(_) => {}
            None => return id,
        }
    }
    0
}

// How many files at the front have an id below that one.
pub(crate) fn place_of(files: &[PlainFile], id: u16) -> usize
    ensures within { result ≤ length files.now }
    ensures before { (k : ℕ) (d : PlainFile) → k < result → (get_or files.now k d).id < id }
    ensures here { (d : PlainFile) → result < length files.now → id ≤ (get_or files.now result d).id }
{
    for (at, f) in files.iter().enumerate() {
        if f.id >= id {
            return at;
        }
    }
    files.len()
}
