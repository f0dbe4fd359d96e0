// A data page of a file is replaced by a copy with bytes in their place, which the index page of its span names.
ghost use Rattle.std.specs.Prelude.{◌≡◌, ◌+◌, ◌<◌, ◌≤◌, OnErr, OnOk, IfOk, IfSome, ℕ, List, length, slice_index};
ghost use Rattle.geometry.specs.Numbers.{body, page_count};
ghost use Rattle.nor_core.specs.Count.{Rose};
ghost use Rattle.nor_core.specs.Flash.{SameOutside};
ghost use Rattle.image_model.specs.Tidy.{IsTidy};
ghost use Rattle.table_model.specs.Table.{File};
ghost use Rattle.flash_view.specs.Places.{IsEntryPage};
ghost use Rattle.flash_view.specs.Same.{OnlyLooks};
ghost use Rattle.flash_view.specs.Steps.{Stepped, failed, stopped};
ghost use Rattle.file_write.specs.Patches.{IsPatchedPage, IsPatchedCopy, IsSpotOf, IsSpot};
ghost use Rattle.file_write.specs.Relinkings.{copying_to, copying, renaming_to, renaming, dropping, ending, replacing_at, replacing};

use crate::create::missing;
use crate::seeking::seek_data;
use flash_view::{Kind, StepErr, View, is_entry_page};
use free_search::free_page;
use geometry::Geometry;
use nor_core::{Failed, Nor, NorState};
use page_layout::{BODY_AT, index_span};
use page_put::{kill, put_page};
use page_renew::{build_data, build_renamed, erase_part, put_over, see_bytes, seek_index};
use table_model::Tag;

// What is to change in a data page of a file: its span, the place of the bytes that are written, and how many of the page's
// file bytes are below the file's size.
#[derive(Clone, Copy, Debug, PartialEq, Eq)]
pub(crate) struct Patch {
    pub(crate) id: u16,
    pub(crate) span: u16,
    pub(crate) from: u32,
    pub(crate) used: u32,
}

// Where a data page of a file is: the page, and the index page that names it.
#[derive(Clone, Copy, Debug, PartialEq, Eq)]
pub(crate) struct Spot {
    pub(crate) page: u16,
    pub(crate) index: u16,
}

// Both pages, where both are there and are entry pages.
fn spot_of(g: &Geometry, number: Option<u16>, index: Option<u16>) -> Option<Spot>
    requires index { IfSome index (λ p. p < page_count g.now) }
    ensures page { IfSome result (λ spot. IsEntryPage g.now spot.page) }
    ensures index { IfSome result (λ spot. IsEntryPage g.now spot.index) }
    ensures told { IsSpotOf g.now number index result }
{
    let Some(page) = number else {
        return None;
    };
    let Some(index) = index else {
        return None;
    };
    if u32::from(page) >= g.pages() || !is_entry_page(g, page) || !is_entry_page(g, index) {
        return None;
    }
    Some(Spot { page, index })
}

// The data page of a span of a file of a tidy image and the index page that names it, where both are entry pages.
#[tactic(auto, using(flash_view::proofs::Looking::looks_then))]
fn find_spot<N: Nor>(v: &mut View<'_, N>, id: u16, span: u16) -> Result<Option<Spot>, Failed>
    ensures cause { OnErr result (Rose (N.faults v.old.nor.now) (N.faults v.new.nor.now)) }
    ensures looks { OnlyLooks v.old v.new }
    ensures page { IfOk result (λ found. IfSome found (λ spot. IsEntryPage v.old.geometry spot.page)) }
    ensures index { IfOk result (λ found. IfSome found (λ spot. IsEntryPage v.old.geometry spot.index)) }
    ensures told { N.tells v.old.nor.now → IsTidy v.old.geometry (N.bytes v.old.nor.now) →
        IfOk result (λ found. IsSpot v.old.geometry (N.bytes v.old.nor.now) id span found) }
{
    let g = v.geometry;
    let number = seek_data(v, id, span)?;
    let index = seek_index(v, id, u32::from(index_span(&g, span)))?;
    Ok(spot_of(&g, number, index))
}

// Writes bytes to a place.
fn write_part(page: &mut [u8], at: usize, bytes: &[u8])
    requires { at + length bytes.now ≤ length page.old }
    ensures inside { (k : ℕ) → k < length bytes.now → slice_index page.new (at + k) ≡ slice_index bytes.now k }
    ensures others { SameOutside at (length bytes.now) page.old page.new }
{
    page[at..at + bytes.len()].copy_from_slice(bytes);
}

// Puts bytes into the file bytes of a data page, and 0xFF behind those that are used.
fn patch_page(page: &mut [u8], from: u32, used: u32, bytes: &[u8])
    requires used { 5 + used ≤ length page.old }
    requires fits { from + length bytes.now ≤ used }
    ensures patched { IsPatchedPage from used bytes.now page.old page.new }
    ensures small { (k : ℕ) → slice_index page.new k < 256 }
{
    let len = page.len();
    erase_part(page, BODY_AT as usize + used as usize, len);
    write_part(page, BODY_AT as usize + from as usize, bytes);
    see_bytes(page);
}

// Builds the copy of a data page with the bytes in their place.
#[tactic(auto, using(flash_view::proofs::Looking::looks_then))]
fn build_patched<N: Nor>(
    v: &mut View<'_, N>,
    page: u16,
    patch: Patch,
    bytes: &[u8],
) -> Result<(), Failed>
    requires page { page < page_count v.old.geometry }
    requires used { patch.used ≤ body v.old.geometry }
    requires fits { patch.from + length bytes.now ≤ patch.used }
    ensures cause { OnErr result (Rose (N.faults v.old.nor.now) (N.faults v.new.nor.now)) }
    ensures looks { OnlyLooks v.old v.new }
    ensures told { N.tells v.old.nor.now →
        OnOk result (IsPatchedCopy v.old.geometry (N.bytes v.old.nor.now) page patch.from patch.used bytes.now v.new.work.now) }
{
    build_data(v, page)?;
    let len = v.geometry.page() as usize;
    let work = &mut *v.work;
    patch_page(&mut work[..len], patch.from, patch.used, bytes);
    Ok(())
}

// Puts the copy of a data page at `to`: four programs.
fn copy_to<N: Nor>(
    v: &mut View<'_, N>,
    patch: Patch,
    spot: Spot,
    to: u16,
    bytes: &[u8],
) -> Result<(), Failed>
    requires page { IsEntryPage v.old.geometry spot.page }
    requires to { IsEntryPage v.old.geometry to }
    requires id { (1 ≤ patch.id) × (patch.id ≤ 0x7FFE) }
    requires used { patch.used ≤ body v.old.geometry }
    requires fits { patch.from + length bytes.now ≤ patch.used }
    ensures step { (f : File) → Stepped failed v.old v.new result (copying_to patch spot to bytes.now f) }
    ensures few { N.device_writes v.new.nor.now ≤ N.device_writes v.old.nor.now + 4 }
{
    build_patched(v, spot.page, patch, bytes)?;
    let tag = Tag {
        id: patch.id,
        span: patch.span,
    };
    put_page(v, to, Kind::Data, tag)
}

// Puts the copy of a data page where a free page is found, and tells its number.
fn copy<N: Nor>(v: &mut View<'_, N>, patch: Patch, spot: Spot, bytes: &[u8]) -> Result<u16, StepErr>
    requires page { IsEntryPage v.old.geometry spot.page }
    requires id { (1 ≤ patch.id) × (patch.id ≤ 0x7FFE) }
    requires used { patch.used ≤ body v.old.geometry }
    requires fits { patch.from + length bytes.now ≤ patch.used }
    ensures step { (f : File) → Stepped stopped v.old v.new result (copying patch spot bytes.now f) }
    ensures few { N.device_writes v.new.nor.now ≤ N.device_writes v.old.nor.now + 4 }
{
    let Some(to) = free_page(v, Kind::Data, 2, None)? else {
        return Err(StepErr::Damaged(missing(patch.id)));
    };
    copy_to(v, patch, spot, to, bytes)?;
    Ok(to)
}

// Puts an index page that names the copy at `at`, in the place of the one that names the old page: six programs.
fn rename_to<N: Nor>(
    v: &mut View<'_, N>,
    patch: Patch,
    spot: Spot,
    to: u16,
    at: u16,
) -> Result<(), Failed>
    requires index { IsEntryPage v.old.geometry spot.index }
    requires at { IsEntryPage v.old.geometry at }
    requires id { (1 ≤ patch.id) × (patch.id ≤ 0x7FFE) }
    ensures step { (was bytes : List ℕ) (f : File) → Stepped failed v.old v.new result (renaming_to was patch spot to at bytes f) }
    ensures few { N.device_writes v.new.nor.now ≤ N.device_writes v.old.nor.now + 6 }
{
    build_renamed(v, spot.index, patch.span, to)?;
    let tag = Tag {
        id: patch.id,
        span: index_span(&v.geometry, patch.span),
    };
    put_over(v, at, tag, spot.index)
}

// The same where a free page is found for the index page.
fn rename<N: Nor>(v: &mut View<'_, N>, patch: Patch, spot: Spot, to: u16) -> Result<(), StepErr>
    requires index { IsEntryPage v.old.geometry spot.index }
    requires id { (1 ≤ patch.id) × (patch.id ≤ 0x7FFE) }
    ensures step { (was bytes : List ℕ) (f : File) → Stepped stopped v.old v.new result (renaming was patch spot to bytes f) }
    ensures few { N.device_writes v.new.nor.now ≤ N.device_writes v.old.nor.now + 6 }
{
    let Some(at) = free_page(v, Kind::Index, 2, None)? else {
        return Err(StepErr::Damaged(missing(patch.id)));
    };
    Ok(rename_to(v, patch, spot, to, at)?)
}

// Kills the old data page.
fn drop_old<N: Nor>(v: &mut View<'_, N>, patch: Patch, spot: Spot) -> Result<(), StepErr>
    requires page { IsEntryPage v.old.geometry spot.page }
    ensures step { (was bytes : List ℕ) (f : File) → Stepped stopped v.old v.new result (dropping was patch spot bytes f) }
    ensures few { N.device_writes v.new.nor.now ≤ N.device_writes v.old.nor.now + 2 }
{
    Ok(kill(v, spot.page)?)
}

// Renews the index page, and then kills the old data page.
fn end_copy<N: Nor>(v: &mut View<'_, N>, patch: Patch, spot: Spot, to: u16) -> Result<(), StepErr>
    requires page { IsEntryPage v.old.geometry spot.page }
    requires index { IsEntryPage v.old.geometry spot.index }
    requires id { (1 ≤ patch.id) × (patch.id ≤ 0x7FFE) }
    ensures step { (was bytes : List ℕ) (f : File) → Stepped stopped v.old v.new result (ending was patch spot to bytes f) }
    ensures few { N.device_writes v.new.nor.now ≤ N.device_writes v.old.nor.now + 8 }
{
    rename(v, patch, spot, to)?;
    drop_old(v, patch, spot)
}

// Replaces a data page that was found.
fn replace_at<N: Nor>(
    v: &mut View<'_, N>,
    patch: Patch,
    spot: Spot,
    bytes: &[u8],
) -> Result<(), StepErr>
    requires page { IsEntryPage v.old.geometry spot.page }
    requires index { IsEntryPage v.old.geometry spot.index }
    requires id { (1 ≤ patch.id) × (patch.id ≤ 0x7FFE) }
    requires used { patch.used ≤ body v.old.geometry }
    requires fits { patch.from + length bytes.now ≤ patch.used }
    ensures step { (f : File) → Stepped stopped v.old v.new result (replacing_at patch spot bytes.now f) }
    ensures few { N.device_writes v.new.nor.now ≤ N.device_writes v.old.nor.now + 12 }
{
    let to = copy(v, patch, spot, bytes)?;
    end_copy(v, patch, spot, to)
}

// Replaces a data page of a file by a copy that holds the bytes in their place, and 0xFF past the file's size: the copy is put, then the index
// page that names it, and then the old index page and the old data page are killed. At a cut the bytes are there or not.
pub(crate) fn replace_page<N: Nor>(
    v: &mut View<'_, N>,
    patch: Patch,
    bytes: &[u8],
) -> Result<(), StepErr>
    requires id { (1 ≤ patch.id) × (patch.id ≤ 0x7FFE) }
    requires used { patch.used ≤ body v.old.geometry }
    requires fits { patch.from + length bytes.now ≤ patch.used }
    ensures step { (f : File) → Stepped stopped v.old v.new result (replacing patch bytes.now f) }
    ensures few { N.device_writes v.new.nor.now ≤ N.device_writes v.old.nor.now + 12 }
{
    let Some(spot) = find_spot(v, patch.id, patch.span)? else {
        return Err(StepErr::Damaged(missing(patch.id)));
    };
    replace_at(v, patch, spot, bytes)
}
