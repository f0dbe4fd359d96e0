// Descriptors in a list.
ghost use Rattle.std.specs.Prelude.{◌≡◌, ◌<◌, ◌≤◌, ◌+◌, ℕ, map, length, replicate, IfOk, IfSome, IfNone, Some, None};
ghost use Rattle.table_model.specs.Descriptors.{open_at as the_open_at, put_at as the_put_at, lowest_closed as the_lowest_closed, without_file, pulled_back};
ghost use Rattle.plain_table.specs.Seen.{held, opened};

use std::alloc::{AllocError, Global};

/// An open descriptor.
#[derive(Clone, Copy, Debug, PartialEq, Eq)]
pub struct PlainOpen {
    /// The id of its file.
    pub id: u16,
    /// The flags of its opening.
    pub flags: u32,
    /// Its offset in bytes.
    pub offset: u32,
}

// So many closed descriptors.
pub(crate) fn all_closed(alloc: Global, n: u16) -> Result<Vec<Option<PlainOpen>>, AllocError>
    ensures { IfOk result (λ slots. map held slots.items ≡ replicate n None) }
{
    let mut slots = Vec::new(alloc);
    for _i in 0..n {
        slots.push(None)?;
    }
    Ok(slots)
}

// The same descriptors with memory of their own.
pub(crate) fn slots_copied(
    alloc: Global,
    slots: &[Option<PlainOpen>],
) -> Result<Vec<Option<PlainOpen>>, AllocError>
    ensures { IfOk result (λ copies. map held copies.items ≡ map held slots.now) }
{
    let mut copies = Vec::new(alloc);
    for slot in slots.iter() {
        copies.push(*slot)?;
    }
    Ok(copies)
}

// The descriptor of a number.
#[tactic(auto, unfolding(table_model::specs::Descriptors::open_at))]
pub(crate) fn open_at(slots: &[Option<PlainOpen>], fd: u16) -> Option<PlainOpen>
    ensures found { IfSome result (λ d. the_open_at (map held slots.now) fd ≡ Some (opened d)) }
    ensures within { IfSome result (λ d. (0 < fd) × (fd ≤ length slots.now)) }
    ensures closed { IfNone result (the_open_at (map held slots.now) fd ≡ None) }
{
    if fd == 0 || usize::from(fd) > slots.len() {
        return None;
    }
    slots[usize::from(fd) - 1]
}

// Puts another in the place of a number.
#[tactic(auto, unfolding(table_model::specs::Descriptors::put_at))]
pub(crate) fn put_at(slots: &mut [Option<PlainOpen>], fd: usize, new: Option<PlainOpen>)
    requires some { 0 < fd }
    requires within { fd ≤ length slots.old }
    ensures { map held slots.new ≡ the_put_at (map held slots.old) fd (held new) }
{
    slots[fd - 1] = new;
}

// The lowest closed number.
#[tactic(auto, unfolding(table_model::specs::Descriptors::lowest_closed), using(crate::proofs::Lowest::closed_here, crate::proofs::Lowest::closed_on, crate::proofs::Lowest::closed_end))]
pub(crate) fn lowest_closed(slots: &[Option<PlainOpen>]) -> Option<usize>
    ensures lowest { result ≡ the_lowest_closed (map held slots.now) }
    ensures within { IfSome result (λ fd. (0 < fd) × (fd ≤ length slots.now)) }
{
    for (at, slot) in slots.iter().enumerate() {
        if slot.is_none() {
            return Some(at + 1);
        }
    }
    None
}

// A descriptor, closed where it is on that file.
fn without(slot: Option<PlainOpen>, id: u16) -> Option<PlainOpen>
    ensures { held result ≡ without_file id (held slot) }
{
    match slot {
        Some(d) if d.id != id => Some(d),
        _ => None,
    }
}

// The descriptors, each on that file closed.
pub(crate) fn without_all(
    alloc: Global,
    slots: &[Option<PlainOpen>],
    id: u16,
) -> Result<Vec<Option<PlainOpen>>, AllocError>
    ensures each { IfOk result (λ next. map held next.items ≡ map (without_file id) (map held slots.now)) }
    ensures len { IfOk result (λ next. length next.items ≡ length slots.now) }
{
    let mut next = Vec::new(alloc);
    for slot in slots.iter() {
        next.push(without(*slot, id))?;
    }
    Ok(next)
}

// A descriptor, pulled back to that offset at most where it is on that file.
fn pulled(slot: Option<PlainOpen>, id: u16, size: u32) -> Option<PlainOpen>
    ensures { held result ≡ pulled_back id size (held slot) }
{
    match slot {
        Some(d) if d.id == id => Some(PlainOpen {
            offset: d.offset.min(size),
            ..d
        }),
        other => other,
    }
}

// The descriptors, each on that file pulled back.
pub(crate) fn pulled_all(
    alloc: Global,
    slots: &[Option<PlainOpen>],
    id: u16,
    size: u32,
) -> Result<Vec<Option<PlainOpen>>, AllocError>
    ensures each { IfOk result (λ next. map held next.items ≡ map (pulled_back id size) (map held slots.now)) }
    ensures len { IfOk result (λ next. length next.items ≡ length slots.now) }
{
    let mut next = Vec::new(alloc);
    for slot in slots.iter() {
        next.push(pulled(*slot, id, size))?;
    }
    Ok(next)
}
