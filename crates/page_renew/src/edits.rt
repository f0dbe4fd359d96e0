// Edits of a header page in the bytes for work.
ghost use Rattle.std.specs.Prelude.{◌≡◌, ℕ, ◌+◌, ◌^◌, ◌<◌, ◌≤◌, OnErr, OnOk, length, slice_index};
ghost use Rattle.geometry.specs.Numbers.{page_count};
ghost use Rattle.nor_core.specs.Count.{Rose};
ghost use Rattle.nor_core.specs.Flash.{SameOutside};
ghost use Rattle.image_model.specs.Headers.{size_of};
ghost use Rattle.flash_view.specs.Same.{OnlyLooks};
ghost use Rattle.page_renew.specs.Edits.{Header, Says, edited, edited_size, IsEdited, IsEditable, HasEdited, IsNamed, naming};

use crate::copying::{copy_index, kept_slots, see_bytes};
use flash_view::View;
use geometry::Geometry;
use nor_core::{Failed, Nor, NorState};
use page_layout::{UNDEFINED_SIZE, data_pages, file_size, put_meta, put_name, put_size, put_slot};

/// What a renewed header page says anew.
#[derive(Clone, Copy, Debug)]
pub enum Edit<'a> {
    /// Another name of 1 to 31 bytes, none of them zero.
    Name(&'a [u8]),
    /// Other meta bytes, as many as the geometry has.
    Meta(&'a [u8]),
    /// Fewer bytes.
    Cut(u32),
    /// More bytes, which stand in data pages already.
    Grow(u32),
    /// The same, and the data pages of the spans behind the last.
    GrowBy { size: u32, pages: &'a [u16] },
}

// The size in bytes after an edit.
fn new_size(edit: Edit<'_>, size: u32) -> u32
    ensures { result ≡ edited_size edit.entry size }
{
    match edit {
        Edit::Name(_) | Edit::Meta(_) => size,
        Edit::Cut(now) | Edit::Grow(now) => now,
        Edit::GrowBy { size: now, .. } => now,
    }
}

// Writes the size of a file: 0 is written as the undefined one.
fn set_size(page: &mut [u8], size: u32)
    requires page { 12 ≤ length page.old }
    requires size { size < 0xFFFFFFFF }
    ensures size { size_of page.new ≡ size }
    ensures others { SameOutside 8 4 page.old page.new }
{
    let field = if size == 0 { UNDEFINED_SIZE } else { size };
    put_size(page, field);
}

// Names the data page of a span, where the header page has its entry.
fn name_one(g: &Geometry, page: &mut [u8], span: u32, target: u16)
    requires { length page.old ≡ g.now.page }
    ensures { IsNamed g.now span target page.old page.new }
{
    if span < g.head_slots() {
        put_slot(g, page, 0, span, target);
    }
}

// Names data pages from a span on, as far as the header page has their entries.
fn name_next(g: &Geometry, page: &mut [u8], span: u32, pages: &[u16])
    requires page { length page.old ≡ g.now.page }
    requires span { span + length pages.now < 2 ^ 32 }
    ensures { (h : Header) → Says g.now h page.old → Says g.now (naming span pages.now h) page.new }
{
    for i in 0..pages.len() {
        name_one(g, page, span + i as u32, pages[i]);
    }
}

// Writes into a header page what an edit says anew; the file had `count` data pages.
fn write_edit(g: &Geometry, page: &mut [u8], edit: Edit<'_>, count: u32)
    requires page { length page.old ≡ g.now.page }
    requires edit { IsEditable g.now edit }
    requires count { count < 2 ^ 26 }
    ensures { (h : Header) → Says g.now h page.old → Says g.now (edited edit.entry count h) page.new }
{
    match edit {
        Edit::Name(name) => put_name(page, name),
        Edit::Meta(meta) => put_meta(g, page, meta),
        Edit::Cut(size) | Edit::Grow(size) => set_size(page, size),
        Edit::GrowBy { size, pages } => {
            set_size(page, size);
            name_next(g, page, count, pages);
        }
    }
}

// Makes a header page its copy with an edit done.
fn edit_page(g: &Geometry, page: &mut [u8], edit: Edit<'_>)
    requires page { length page.old ≡ g.now.page }
    requires edit { IsEditable g.now edit }
    ensures edited { IsEdited g.now page.old edit.entry page.new }
    ensures old_bytes { (k : ℕ) → slice_index page.old k < 256 }
    ensures new_bytes { (k : ℕ) → slice_index page.new k < 256 }
{
    let size = file_size(page);
    let count = data_pages(g, size);
    let later = data_pages(g, new_size(edit, size));
    copy_index(g, page, 0, kept_slots(g, 0, count.min(later)));
    write_edit(g, page, edit, count);
    see_bytes(page);
}

/// Builds the copy of a header page with an edit done.
#[tactic(auto, using(flash_view::proofs::Looking::looks_then))]
pub fn build_edited<N: Nor>(v: &mut View<'_, N>, header: u16, edit: Edit<'_>) -> Result<(), Failed>
    requires header { header < page_count v.old.geometry }
    requires edit { IsEditable v.old.geometry edit }
    ensures cause { OnErr result (Rose (N.faults v.old.nor.now) (N.faults v.new.nor.now)) }
    ensures looks { OnlyLooks v.old v.new }
    ensures told { N.tells v.old.nor.now → OnOk result (HasEdited v.old.geometry (N.bytes v.old.nor.now) header edit.entry v.new.work.now) }
{
    v.load(header)?;
    let g = v.geometry;
    let len = g.page() as usize;
    let work = &mut *v.work;
    edit_page(&g, &mut work[..len], edit);
    Ok(())
}
