ghost use Rattle.std.specs.Prelude.{◌≡◌, ℕ, List, ◌+◌, ◌<◌, length, take, Some, IsTrue, IfSome, IfOk, OnErr};
ghost use Rattle.nor_core.specs.Count.{Rose};
ghost use Rattle.table_model.specs.Table.{same_text};
ghost use Rattle.table_model.specs.Names.{is_bad_name};
ghost use Rattle.folder_core.specs.Files.{name_at};
ghost use Rattle.folder_core.specs.Puts.{Kept};
ghost use Rattle.folder_plan.specs.Refusals.{accepted, is_name_of, is_bad as the_bad, first_bad};
ghost use Rattle.folder_plan.specs.Rising.{IsBefore, AreUpTo};

use folder_core::{Folder, FolderState};
use nor_core::Failed;
use std::cmp::Ordering;
use table_model::Name;

/// Bytes of a name that are read: one more than a file's name can have.
const FRONT: usize = 32;

// Whether a name is empty or holds a zero byte.
fn is_bad(name: &[u8]) -> bool
    ensures { result ≡ is_bad_name name.now }
{
    name.is_empty() || name.contains(&0)
}

// These bytes as a name, if a file can have it.
#[tactic(auto, unfolding(table_model::specs::Names::name_refusal))]
fn accept(name: &[u8]) -> Option<Name>
    ensures { result ≡ accepted name.now }
{
    if is_bad(name) {
        return None;
    }
    if name.len() > 31 {
        return None;
    }
    Some(Name::from_slice(name))
}

/// The name of file `i` of a folder, counted from 0, if a file of a volume can have it.
pub fn name_of<F: Folder>(folder: &mut F, i: u32) -> Result<Option<Name>, Failed>
    requires inside { i < length (F.entries folder.old) }
    ensures name { IfOk result (λ name. name ≡ accepted (name_at (F.entries folder.old) i)) }
    ensures cause { OnErr result (Rose (F.faults folder.old) (F.faults folder.new)) }
    ensures kept { Kept F.FolderState folder.old folder.new }
{
    let mut front = [0; FRONT];
    let length = folder.name(i, &mut front)?;
    if length >= FRONT {
        return Ok(None);
    }
    Ok(accept(&front[..length]))
}

// Whether the name of file `i` is that one.
fn is_named<F: Folder>(folder: &mut F, i: u32, name: &[u8]) -> Result<bool, Failed>
    requires inside { i < length (F.entries folder.old) }
    requires fine { accepted name.now ≡ Some name.now }
    ensures same { IfOk result (λ is. is ≡ same_text (name_at (F.entries folder.old) i) name.now) }
    ensures cause { OnErr result (Rose (F.faults folder.old) (F.faults folder.new)) }
    ensures kept { Kept F.FolderState folder.old folder.new }
{
    Ok(match name_of(folder, i)? {
        Some(other) => other.as_slice() == name,
        None => false,
    })
}

// Whether one of the files before file `i` has that name.
fn is_taken<F: Folder>(folder: &mut F, i: u32, name: &[u8]) -> Result<bool, Failed>
    requires inside { i < length (F.entries folder.old) }
    requires fine { accepted name.now ≡ Some name.now }
    ensures taken { IfOk result (λ is. is ≡ is_name_of name.now (take i (F.entries folder.old))) }
    ensures cause { OnErr result (Rose (F.faults folder.old) (F.faults folder.new)) }
    ensures kept { Kept F.FolderState folder.old folder.new }
{
    for k in 0..i {
        if is_named(folder, k, name)? {
            return Ok(true);
        }
    }
    Ok(false)
}

// Whether a name comes before another in the order of bytes.
fn is_before(name: &[u8], other: &[u8]) -> bool
    ensures { IsTrue result → IsBefore name.now other.now }
{
    matches!(name.cmp(other), Ordering::Less)
}

// Whether a name comes behind the last of those before it, where that is told: where their names rise.
fn comes_behind(top: &Option<Name>, name: &[u8]) -> bool
    ensures { IsTrue result → (t : List ℕ) × (top.now ≡ Some t) × IsBefore t name.now }
{
    match top {
        Some(top) => is_before(top.as_slice(), name),
        None => false,
    }
}

// What the name of a file is among those of the files before it.
#[derive(Drop)]
struct Checked {
    // No file can have it, or an earlier one has it.
    is_bad: bool,
    // The name, where it and all before it rise.
    top: Option<Name>,
}

// Looks at the name of file `i`. `top` is the last name before it, where these rise: a folder that is in order needs no second look.
fn check_name<F: Folder>(folder: &mut F, i: u32, top: Option<Name>) -> Result<Checked, Failed>
    requires inside { i < length (F.entries folder.old) }
    requires rising { IfSome top (λ t. AreUpTo t i (F.entries folder.old)) }
    ensures bad { IfOk result (λ c. c.is_bad ≡ the_bad (F.entries folder.old) i) }
    ensures rising { IfOk result (λ c. IfSome c.top (λ t. AreUpTo t (i + 1) (F.entries folder.old))) }
    ensures cause { OnErr result (Rose (F.faults folder.old) (F.faults folder.new)) }
    ensures kept { Kept F.FolderState folder.old folder.new }
{
    let Some(name) = name_of(folder, i)? else {
        return Ok(Checked {
            is_bad: true,
            top: None,
        });
    };
    if comes_behind(&top, name.as_slice()) {
        return Ok(Checked {
            is_bad: false,
            top: Some(name),
        });
    }
    Ok(Checked {
        is_bad: is_taken(folder, i, name.as_slice())?,
        top: None,
    })
}

/// The first of a folder's files that has a name which no file of a volume can have, or which an earlier one has. Each name is looked at once
/// as long as they rise, as those of a folder do that is in order.
pub(crate) fn first_bad_name<F: Folder>(folder: &mut F, count: u32) -> Result<Option<u32>, Failed>
    requires count { count ≡ length (F.entries folder.old) }
    ensures first { IfOk result (λ at. at ≡ first_bad (F.entries folder.old)) }
    ensures cause { OnErr result (Rose (F.faults folder.old) (F.faults folder.new)) }
    ensures kept { Kept F.FolderState folder.old folder.new }
{
    let mut top = Some(Name::from_slice(b""));
    for i in 0..count {
        let checked = check_name(folder, i, top)?;
        if checked.is_bad {
            return Ok(Some(i));
        }
        top = checked.top;
    }
    Ok(None)
}
