ghost use Rattle.std.specs.Prelude.{◌≡◌, ◌<◌, ◌≤◌, ℕ, length, OnErr, IfOk};
ghost use Rattle.geometry.specs.Numbers.{check_need};
ghost use Rattle.nor_core.specs.Count.{Rose};
ghost use Rattle.flash_view.specs.Places.{IsEntryPage};
ghost use Rattle.flash_view.specs.Same.{OnlyLooks};
ghost use Rattle.page_layout.specs.Ids.{bit_of};
ghost use Rattle.vol_check.specs.Noted.{Notes, NotesHeader, IsIndexPage, TellsDoubled};
ghost use Rattle.vol_check.specs.Works.{Worked, culling_doubled, culling_doubles};

use crate::culling::cull;
use crate::marking::clear;
use flash_view::View;
use nor_core::{Failed, Nor, NorState};
use page_layout::{FREE, INDEX_BIT, PageHeader, is_noted, note_id};

// Bytes that hold a bit for each id.
const ID_BYTES: usize = 4096;

// Notes the id of a header page by its bit: whether it was noted before. None where this is the header of another index
// page.
fn note(bits: &mut [u8], head: PageHeader) -> Option<bool>
    requires { 4096 ≤ length bits.old }
    ensures { NotesHeader head result bits.old bits.new }
{
    let id = head.object();
    if head.span != 0 {
        return None;
    }
    let noted = is_noted(bits, id);
    note_id(bits, id);
    Some(noted)
}

// Whether another index page of its id and span stands before a live one with this header. Header pages are told by
// notes of those before, the others are looked for.
fn is_later<N: Nor>(
    v: &mut View<'_, N>,
    bits: &mut [u8],
    page: u16,
    head: PageHeader,
) -> Result<bool, Failed>
    requires page { IsEntryPage v.old.geometry page }
    requires room { 4096 ≤ length bits.old }
    ensures cause { OnErr result (Rose (N.faults v.old.nor.now) (N.faults v.new.nor.now)) }
    ensures looks { OnlyLooks v.old v.new }
    ensures told { N.tells v.old.nor.now → Notes v.old.geometry (N.bytes v.old.nor.now) page bits.old → IsIndexPage v.old.geometry
        (N.bytes v.old.nor.now) page head → IfOk result (λ later. TellsDoubled v.old.geometry (N.bytes v.old.nor.now) page later bits.new) }
{
    if let Some(noted) = note(bits, head) {
        return Ok(noted);
    }
    Ok(v.find_index(head.object(), head.span)? != Some(page))
}

// Kills a live index page with this header, if it is doubled: whether it was killed.
fn cull_doubled<N: Nor>(
    v: &mut View<'_, N>,
    bits: &mut [u8],
    page: u16,
    head: PageHeader,
) -> Result<bool, Failed>
    requires page { IsEntryPage v.old.geometry page }
    requires room { 4096 ≤ length bits.old }
    ensures { Worked v.old v.new result (culling_doubled page head bits.old bits.new) }
{
    if !is_later(v, bits, page, head)? {
        return Ok(false);
    }
    cull(v, page)?;
    Ok(true)
}

// Kills each live index page that isn't the first of its id and span, in page order: how many were killed. No id is
// noted.
fn cull_noted<N: Nor>(v: &mut View<'_, N>, bits: &mut [u8]) -> Result<u32, Failed>
    requires clear { (id : ℕ) → bit_of bits.old id ≡ 0 }
    requires room { 4096 ≤ length bits.old }
    ensures most { IfOk result (λ killed. killed ≤ 65535) }
    ensures work { Worked v.old v.new result culling_doubles }
{
    let mut killed = 0;
    let mut at = 0;
    'pages: while let Some((page, head)) = v.next_live(at, INDEX_BIT, FREE - 1)? {
        killed += u32::from(cull_doubled(v, bits, page, head)?);
        at = u32::from(page) + 1;
    }
    Ok(killed)
}

/// Kills each live index page that isn't the first of its id and span, in page order: how many were killed. The marks
/// are bytes for notes, one for each page of the volume, and behind these a bit for each id.
pub(crate) fn cull_doubles<N: Nor>(v: &mut View<'_, N>, marks: &mut [u8]) -> Result<u32, Failed>
    requires room { check_need v.old.geometry ≤ length marks.old }
    ensures most { IfOk result (λ killed. killed ≤ 65535) }
    ensures work { Worked v.old v.new result culling_doubles }
{
    let pages = v.geometry.pages() as usize;
    let bits = &mut marks[pages..pages + ID_BYTES];
    clear(bits, ID_BYTES);
    cull_noted(v, bits)
}
