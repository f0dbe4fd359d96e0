ghost use Rattle.std.specs.Prelude.{◌≡◌, ◌≢◌, ◌+◌, ◌*◌, ◌/◌, ◌%◌, ◌<◌, ◌≤◌, length, [], ◌∷◌, OnOk, OnErr, true};
ghost use Rattle.nor_core.specs.Count.{Rose};
ghost use Rattle.nor_core.specs.Flash.{HalfProgrammed, programmed};
ghost use Rattle.nor_core.specs.Device.{Changes};
ghost use Rattle.page_layout.specs.Layout.{bits_of};
ghost use Rattle.image_model.specs.Places.{entry_of};
ghost use Rattle.flash_view.specs.Places.{IsEntryPage};
ghost use Rattle.flash_view.specs.Same.{IsSameView};
ghost use Rattle.flash_view.specs.Steps.{Stepped, failed};
ghost use Rattle.page_put.specs.LivePages.{putting};
ghost use Rattle.page_put.specs.Placing.{placed_id, placed_flags, placed_page, with_page, put_by, IsPlacing, IsPutting, ProgramsPlace, FinishClearsFinal};
ghost use Rattle.geometry.specs.declared.geometry.Geometry.{Geometry};
ghost use Rattle.page_put.specs.Recount.{OneChanges, StandsAgain};

use crate::rows::{recount, sort_before};
use flash_view::{Kind, View};
use nor_core::{Failed, Nor, NorState};
use page_layout::{Flags, INDEX_BIT, PageHeader, put_header};
use table_model::Tag;

// The header of a page that is placed and not finished.
fn placed(kind: Kind, tag: Tag) -> PageHeader
    requires { tag.id < 0x8000 }
    ensures id { result.id ≡ placed_id kind tag.id }
    ensures span { result.span ≡ tag.span }
    ensures flags { bits_of result.flags ≡ placed_flags kind }
{
    match kind {
        Kind::Index => PageHeader {
            id: tag.id | INDEX_BIT,
            span: tag.span,
            flags: Flags::placed_index(),
        },
        Kind::Data => PageHeader {
            id: tag.id,
            span: tag.span,
            flags: Flags::placed_data(),
        },
    }
}

// Fills five bytes with a header.
fn fill_header(bytes: &mut [u8], head: PageHeader)
    requires { length bytes.old ≡ 5 }
    ensures { bytes.new ≡ head.id % 256 ∷ head.id / 256 ∷ head.span % 256 ∷ head.span / 256 ∷ bits_of head.flags ∷ [] }
{
    put_header(bytes, head);
}

// The three programs of a page that is placed: its entry, its header, and all behind it.
#[tactic(auto, using(flash_view::proofs::Looking::same_then))]
fn program_page<N: Nor>(v: &mut View<'_, N>, page: u16, kind: Kind, tag: Tag) -> Result<(), Failed>
    requires page { IsEntryPage v.old.geometry page }
    requires id { (1 ≤ tag.id) × (tag.id ≤ 0x7FFE) }
    ensures cause { OnErr result (Rose (N.faults v.old.nor.now) (N.faults v.new.nor.now)) }
    ensures same { IsSameView v.old v.new }
    ensures wrote { v.new.wrote ≡ true }
    ensures only { N.tells v.old.nor.now → OneChanges v.old.geometry page (N.bytes v.old.nor.now) (N.bytes v.new.nor.now) }
    ensures rows { v.new.rows.now ≡ v.old.rows.now }
    ensures changes { Changes N.NorState v.old.nor.now v.new.nor.now (IsPlacing v.old.geometry page (placed_page v.old.geometry kind tag v.old.work.now)) }
    ensures done { N.tells v.old.nor.now →
        OnOk result (N.bytes v.new.nor.now ≡ with_page v.old.geometry page (placed_page v.old.geometry kind tag v.old.work.now) (N.bytes v.old.nor.now)) }
    ensures few { N.device_writes v.new.nor.now ≤ N.device_writes v.old.nor.now + 3 }
{
    let head = placed(kind, tag);
    v.program_entry(page, head.id)?;
    let mut bytes = [0u8; 5];
    fill_header(&mut bytes, head);
    v.program_in(page, 0, &bytes)?;
    v.program_build(page, 5)
}

// The program that finishes a page that was placed: it clears FINAL, one bit.
fn program_final<N: Nor>(v: &mut View<'_, N>, page: u16) -> Result<(), Failed>
    requires page { IsEntryPage v.old.geometry page }
    ensures cause { OnErr result (Rose (N.faults v.old.nor.now) (N.faults v.new.nor.now)) }
    ensures same { IsSameView v.old v.new }
    ensures wrote { v.new.wrote ≡ true }
    ensures rows { v.new.rows.now ≡ v.old.rows.now }
    ensures changes { Changes N.NorState v.old.nor.now v.new.nor.now (HalfProgrammed (page * v.old.geometry.page + 4) (0xFD ∷ [])) }
    ensures done { N.tells v.old.nor.now →
        OnOk result (N.bytes v.new.nor.now ≡ programmed (N.bytes v.old.nor.now) (page * v.old.geometry.page + 4) (0xFD ∷ [])) }
    ensures few { N.device_writes v.new.nor.now ≤ N.device_writes v.old.nor.now + 1 }
{
    let erased = Flags::from_bits(0xFF);
    v.program_in(page, 4, &[erased.finished().bits()])
}

// The four programs of a page that is put, over which no row is touched.
#[tactic(auto, using(flash_view::proofs::Looking::same_then))]
fn program_put<N: Nor>(v: &mut View<'_, N>, page: u16, kind: Kind, tag: Tag) -> Result<(), Failed>
    requires page { IsEntryPage v.old.geometry page }
    requires id { (1 ≤ tag.id) × (tag.id ≤ 0x7FFE) }
    ensures cause { OnErr result (Rose (N.faults v.old.nor.now) (N.faults v.new.nor.now)) }
    ensures same { IsSameView v.old v.new }
    ensures wrote { v.new.wrote ≡ true }
    ensures changes { Changes N.NorState v.old.nor.now v.new.nor.now (IsPutting v.old.geometry page (placed_page v.old.geometry kind tag v.old.work.now)) }
    ensures done { N.tells v.old.nor.now →
        OnOk result (N.bytes v.new.nor.now ≡ put_by v.old.geometry page (placed_page v.old.geometry kind tag v.old.work.now) (N.bytes v.old.nor.now)) }
    ensures only { N.tells v.old.nor.now → OneChanges v.old.geometry page (N.bytes v.old.nor.now) (N.bytes v.new.nor.now) }
    ensures rows { v.new.rows.now ≡ v.old.rows.now }
    ensures used { N.tells v.old.nor.now → OnOk result (entry_of v.old.geometry (N.bytes v.new.nor.now) page ≢ 0xFFFF) }
    ensures few { N.device_writes v.new.nor.now ≤ N.device_writes v.old.nor.now + 4 }
{
    program_page(v, page, kind, tag)?;
    program_final(v, page)
}

// These programs, after which the page's entry is counted.
#[tactic(auto, using(flash_view::proofs::Looking::same_then))]
fn put_counted<N: Nor>(v: &mut View<'_, N>, page: u16, kind: Kind, tag: Tag) -> Result<(), Failed>
    requires page { IsEntryPage v.old.geometry page }
    requires id { (1 ≤ tag.id) × (tag.id ≤ 0x7FFE) }
    ensures cause { OnErr result (Rose (N.faults v.old.nor.now) (N.faults v.new.nor.now)) }
    ensures same { IsSameView v.old v.new }
    ensures wrote { v.new.wrote ≡ true }
    ensures changes { Changes N.NorState v.old.nor.now v.new.nor.now (IsPutting v.old.geometry page (placed_page v.old.geometry kind tag v.old.work.now)) }
    ensures done { N.tells v.old.nor.now →
        OnOk result (N.bytes v.new.nor.now ≡ put_by v.old.geometry page (placed_page v.old.geometry kind tag v.old.work.now) (N.bytes v.old.nor.now)) }
    ensures counted { StandsAgain v.old v.new result }
    ensures few { N.device_writes v.new.nor.now ≤ N.device_writes v.old.nor.now + 4 }
{
    let before = sort_before(v, page);
    program_put(v, page, kind, tag)?;
    recount(v, page, before?)
}

/// Puts the page that is being built, by four programs in this order: its entry in the lookup page, its header with USED
/// cleared, the bytes behind the header, and FINAL, one bit, which makes the page live. At a cut it is live or not, and all
/// else is as it was. The page and its entry are to be erased, in a block with its magic; the id without bit 15 is from 1 to
/// 0x7FFE.
pub fn put_page<N: Nor>(v: &mut View<'_, N>, page: u16, kind: Kind, tag: Tag) -> Result<(), Failed>
    requires page { IsEntryPage v.old.geometry page }
    requires id { (1 ≤ tag.id) × (tag.id ≤ 0x7FFE) }
    ensures step { Stepped failed v.old v.new result (putting page kind tag v.old.work.now) }
    ensures wrote { v.new.wrote ≡ true }
    ensures counted { StandsAgain v.old v.new result }
    ensures order { Changes N.NorState v.old.nor.now v.new.nor.now (IsPutting v.old.geometry page (placed_page v.old.geometry kind tag v.old.work.now)) }
    ensures few { N.device_writes v.new.nor.now ≤ N.device_writes v.old.nor.now + 4 }
{
    put_counted(v, page, kind, tag)
}

/// What the first three programs of a put and the fourth leave is what the laws of a put speak of: a placed page, and the program of its
/// finished flags.
pub fn puts_by_programs()
    ensures places { (g : Geometry) → ProgramsPlace g }
    ensures finishes { FinishClearsFinal }
{}
