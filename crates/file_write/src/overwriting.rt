// Bytes of a file are overwritten.
ghost use Rattle.std.specs.Prelude.{◌≡◌, ◌+◌, ◌≤◌, IfSome, length};
ghost use Rattle.geometry.specs.Numbers.{body};
ghost use Rattle.table_model.specs.Table.{File};
ghost use Rattle.flash_view.specs.Steps.{Stepped, stopped};
ghost use Rattle.file_write.specs.Patches.{IsPatchAt};
ghost use Rattle.file_write.specs.Relinkings.{overwriting_in};
ghost use Rattle.file_write.specs.Overwrites.{overwriting};

use crate::create::missing;
use crate::relinking::{Patch, replace_page};
use flash_view::{StepErr, View};
use geometry::Geometry;
use nor_core::{Nor, NorState};
use page_renew::find_home;

// What is to change in the data page where so many bytes begin, where they end in it and not behind the file's end.
fn patch_at(g: &Geometry, id: u16, size: u32, at: u32, len: usize) -> Option<Patch>
    ensures id { IfSome result (λ p. p.id ≡ id) }
    ensures used { IfSome result (λ p. p.used ≤ body g.now) }
    ensures fits { IfSome result (λ p. p.from + len ≤ p.used) }
    ensures told { IsPatchAt g.now size at len result }
{
    let body = g.body();
    let span = at / body;
    let from = at % body;
    if span > 0xFFFF || at > size {
        return None;
    }
    let used = (size - (at - from)).min(body);
    if len > (used - from) as usize {
        return None;
    }
    Some(Patch {
        id,
        span: span as u16,
        from,
        used,
    })
}

// Overwrites bytes of a file of that size.
fn overwrite_in<N: Nor>(
    v: &mut View<'_, N>,
    id: u16,
    size: u32,
    at: u32,
    bytes: &[u8],
) -> Result<(), StepErr>
    requires id { (1 ≤ id) × (id ≤ 0x7FFE) }
    ensures step { (f : File) → Stepped stopped v.old v.new result (overwriting_in id size at bytes.now f) }
    ensures few { N.device_writes v.new.nor.now ≤ N.device_writes v.old.nor.now + 12 }
{
    match patch_at(&v.geometry, id, size, at, bytes.len()) {
        None => Err(StepErr::Damaged(missing(id))),
        Some(patch) => replace_page(v, patch, bytes),
    }
}

/// Overwrites bytes inside one data page of a file, from a place on, in one page step: at a cut they are there or not. The data page
/// is replaced by a copy that holds them, and the index page that names it by one that names the copy. It takes twelve programs at most.
pub fn overwrite_step<N: Nor>(
    v: &mut View<'_, N>,
    id: u16,
    at: u32,
    bytes: &[u8],
) -> Result<(), StepErr>
    ensures step { (f : File) → Stepped stopped v.old v.new result (overwriting id at bytes.now f) }
    ensures few { N.device_writes v.new.nor.now ≤ N.device_writes v.old.nor.now + 12 }
{
    let Some(found) = find_home(v, id)? else {
        return Err(StepErr::Damaged(missing(id)));
    };
    overwrite_in(v, id, found.size, at, bytes)
}
