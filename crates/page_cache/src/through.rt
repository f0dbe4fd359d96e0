//! Calls of a device through the copies of its pages, for an owner that keeps the device and the bytes of the frames apart, as in
//! two fields of its own; `Cached` holds both. The volume is the first bytes of the device. The frames are those that `Cached::new`
//! made over that device and `give_back` gave back, and no other call has changed the device since: their copies are right, and
//! every call here leaves them so.
ghost use Rattle.std.specs.Prelude.{◌≡◌, ◌≢◌, ℕ, ◌+◌, ◌*◌, ◌/◌, ◌%◌, ◌<◌, ◌≤◌, ◌⊎◌, length, slice_index, slice_range, OnOk, OnErr, IfOk, IsOk, true, None};
ghost use Rattle.std.specs.Option.{ForSome};
ghost use Rattle.geometry.specs.Numbers.{page_count, cache_need};
ghost use Rattle.nor_core.specs.Count.{Rose};
ghost use Rattle.nor_core.specs.Flash.{programmed, HalfProgrammed, erased, HalfErased};
ghost use Rattle.nor_core.specs.Device.{OnlyReads, Changes, InErase, Writes};
ghost use Rattle.page_cache.specs.Frames.{frame_size, frame_count as the_frame_count, frame_at, page_in, holds, KeepsHeld, KeepsOutside, SameHead, IsCopy};
ghost use Rattle.page_cache.specs.Frames.{InOnePage};
ghost use Rattle.page_cache.specs.Kept.{IsKept, FewReads, Stays};

use crate::frame::{Event, HEAD, fill};
use crate::frames::{
    bound_all, find, follow_all, frame, frame_len, holder, is_whole, pick, start_of,
};
use geometry::Geometry;
use nor_core::{Failed, Mark, Nor, NorState};

// A frame gets a page from the device.
fn load_frame<N: Nor>(
    g: &Geometry,
    nor: &mut N,
    frames: &mut [u8],
    f: usize,
    page: u16,
) -> Result<(), Failed>
    requires frame { f < the_frame_count g.now frames.old }
    requires page { page < page_count g.now }
    requires volume { g.now.blocks * g.now.block ≤ N.size nor.old }
    ensures cause { OnErr result (Rose (N.faults nor.old) (N.faults nor.new)) }
    ensures reads { OnlyReads N.NorState nor.old nor.new }
    ensures once { N.device_reads nor.new ≤ N.device_reads nor.old + 1 }
    ensures number { OnOk result (page_in g.now frames.new f ≡ page) }
    ensures free { OnErr result (page_in g.now frames.new f ≡ 65535) }
    ensures head { SameHead (frame_at g.now frames.old f) (frame_at g.now frames.new f) }
    ensures copy { N.tells nor.old → OnOk result (IsCopy g.now.page (N.bytes nor.old) (frame_at g.now frames.new f)) }
    ensures others { (h : ℕ) → h ≢ f → frame_at g.now frames.new h ≡ frame_at g.now frames.old h }
{
    let start = start_of(g, frames, f);
    let end = start + frame_len(g);
    fill(nor, &mut frames[start..end], g.page(), page)
}

// A page that is not held gets into a frame.
#[inline(never)]
fn bring_missing<N: Nor>(
    g: &Geometry,
    nor: &mut N,
    frames: &mut [u8],
    page: u16,
) -> Result<usize, Failed>
    requires need { cache_need g.now ≤ length frames.old }
    requires page { page < page_count g.now }
    requires volume { g.now.blocks * g.now.block ≤ N.size nor.old }
    requires kept { IsKept N.NorState g.now nor.old frames.old }
    requires missing { (f : ℕ) → f < the_frame_count g.now frames.old → page_in g.now frames.old f ≢ page }
    ensures cause { OnErr result (Rose (N.faults nor.old) (N.faults nor.new)) }
    ensures reads { OnlyReads N.NorState nor.old nor.new }
    ensures kept { IsKept N.NorState g.now nor.new frames.new }
    ensures below { IfOk result (λ f. f < the_frame_count g.now frames.new) }
    ensures number { IfOk result (λ f. page_in g.now frames.new f ≡ page) }
    ensures once { N.device_reads nor.new ≤ N.device_reads nor.old + 1 }
    ensures stays { Stays g.now frames.old frames.new }
    ensures few { FewReads N.NorState g.now nor.old frames.old nor.new frames.new }
{
    let f = pick(g, frames, page);
    match load_frame(g, nor, frames, f, page) {
        Ok(()) => Ok(f),
        Err(failed) => {
            bound_all(g, frames, 0);
            Err(failed)
        }
    }
}

/// Gets a page of the volume held, as `hold_page` does, and tells its frame, for `brought`.
pub fn bring<N: Nor>(
    g: &Geometry,
    nor: &mut N,
    frames: &mut [u8],
    page: u16,
) -> Result<usize, Failed>
    requires need { cache_need g.now ≤ length frames.old }
    requires page { page < page_count g.now }
    requires volume { g.now.blocks * g.now.block ≤ N.size nor.old }
    requires kept { IsKept N.NorState g.now nor.old frames.old }
    ensures cause { OnErr result (Rose (N.faults nor.old) (N.faults nor.new)) }
    ensures reads { OnlyReads N.NorState nor.old nor.new }
    ensures kept { IsKept N.NorState g.now nor.new frames.new }
    ensures below { IfOk result (λ f. f < the_frame_count g.now frames.new) }
    ensures number { IfOk result (λ f. page_in g.now frames.new f ≡ page) }
    ensures hit { holds g.now frames.old page ≡ true → IsOk result × (nor.new ≡ nor.old) × (frames.new ≡ frames.old) }
    ensures once { N.device_reads nor.new ≤ N.device_reads nor.old + 1 }
    ensures stays { Stays g.now frames.old frames.new }
    ensures few { FewReads N.NorState g.now nor.old frames.old nor.new frames.new }
{
    match find(g, frames, page) {
        Some(f) => Ok(f),
        None => bring_missing(g, nor, frames, page),
    }
}

/// Gets a page of the volume held, for `held_page`. It reads the device once, or not at all if the page is held. It fails where the
/// device fails.
pub fn hold_page<N: Nor>(
    g: &Geometry,
    nor: &mut N,
    frames: &mut [u8],
    page: u16,
) -> Result<(), Failed>
    requires need { cache_need g.now ≤ length frames.old }
    requires page { page < page_count g.now }
    requires volume { g.now.blocks * g.now.block ≤ N.size nor.old }
    requires kept { IsKept N.NorState g.now nor.old frames.old }
    ensures holds { OnOk result (holds g.now frames.new page ≡ true) }
    ensures hit { holds g.now frames.old page ≡ true → IsOk result × (nor.new ≡ nor.old) × (frames.new ≡ frames.old) }
    ensures once { N.device_reads nor.new ≤ N.device_reads nor.old + 1 }
    ensures cause { OnErr result (Rose (N.faults nor.old) (N.faults nor.new)) }
    ensures only_reads { OnlyReads N.NorState nor.old nor.new }
    ensures stays { Stays g.now frames.old frames.new }
    ensures few { FewReads N.NorState g.now nor.old frames.old nor.new frames.new }
    ensures kept { IsKept N.NorState g.now nor.new frames.new }
{
    match bring(g, nor, frames, page) {
        Ok(_) => Ok(()),
        Err(failed) => Err(failed),
    }
}

/// The bytes of a page that is held in the frame `f`, lent from there.
#[inline(always)]
pub fn brought<'a, N: Nor>(g: &Geometry, nor: &N, frames: &'a [u8], f: usize, page: u16) -> &'a [u8]
    requires page { page < page_count g.now }
    requires volume { g.now.blocks * g.now.block ≤ N.size nor.now }
    requires kept { IsKept N.NorState g.now nor.now frames.now }
    requires below { f < the_frame_count g.now frames.now }
    requires number { page_in g.now frames.now f ≡ page }
    ensures size { length result.now ≡ g.now.page }
    ensures bytes { N.tells nor.now → result.now ≡ slice_range (N.bytes nor.now) (page * g.now.page) (page * g.now.page + g.now.page) }
{
    &frame(g, frames, f)[HEAD..]
}

/// The bytes of a page that is held, lent from its frame.
pub fn held_page<'a, N: Nor>(g: &Geometry, nor: &N, frames: &'a [u8], page: u16) -> &'a [u8]
    requires need { cache_need g.now ≤ length frames.now }
    requires page { page < page_count g.now }
    requires volume { g.now.blocks * g.now.block ≤ N.size nor.now }
    requires kept { IsKept N.NorState g.now nor.now frames.now }
    requires holds { holds g.now frames.now page ≡ true }
    ensures size { length result.now ≡ g.now.page }
    ensures bytes { N.tells nor.now → result.now ≡ slice_range (N.bytes nor.now) (page * g.now.page) (page * g.now.page + g.now.page) }
{
    let f = holder(g, frames, page);
    brought(g, nor, frames, f, page)
}

// Reads bytes of a page, from its byte `start` on.
fn read_within<N: Nor>(
    g: &Geometry,
    nor: &mut N,
    frames: &mut [u8],
    page: u16,
    start: usize,
    into: &mut [u8],
) -> Result<(), Failed>
    requires need { cache_need g.now ≤ length frames.old }
    requires page { page < page_count g.now }
    requires inside { start + length into.old ≤ g.now.page }
    requires volume { g.now.blocks * g.now.block ≤ N.size nor.old }
    requires kept { IsKept N.NorState g.now nor.old frames.old }
    ensures read { N.tells nor.old →
        OnOk result (into.new ≡ slice_range (N.bytes nor.old) (page * g.now.page + start) (page * g.now.page + start + length into.old)) }
    ensures cause { OnErr result (Rose (N.faults nor.old) (N.faults nor.new)) }
    ensures reads { OnlyReads N.NorState nor.old nor.new }
    ensures kept { IsKept N.NorState g.now nor.new frames.new }
    ensures hit { holds g.now frames.old page ≡ true → IsOk result × (nor.new ≡ nor.old) × (frames.new ≡ frames.old) }
    ensures once { N.device_reads nor.new ≤ N.device_reads nor.old + 1 }
    ensures held { OnOk result (holds g.now frames.new page ≡ true) }
    ensures stays { Stays g.now frames.old frames.new }
    ensures few { FewReads N.NorState g.now nor.old frames.old nor.new frames.new }
{
    let f = bring(g, nor, frames, page)?;
    let first = HEAD + start;
    let end = first + into.len();
    into.copy_from_slice(&frame(g, frames, f)[first..end]);
    Ok(())
}

/// Reads bytes of a page of the volume, from its byte `start` on: from its copy where it is held, else from the device, those bytes
/// alone, and no frame changes. (Where there is a frame for each page, the page is held afterwards, and so it is read once.) It fails
/// where the device fails.
pub fn peek_page<N: Nor>(
    g: &Geometry,
    nor: &mut N,
    frames: &mut [u8],
    page: u16,
    start: usize,
    into: &mut [u8],
) -> Result<(), Failed>
    requires need { cache_need g.now ≤ length frames.old }
    requires page { page < page_count g.now }
    requires some { 0 < length into.old }
    requires inside { start + length into.old ≤ g.now.page }
    requires volume { g.now.blocks * g.now.block ≤ N.size nor.old }
    requires kept { IsKept N.NorState g.now nor.old frames.old }
    ensures read { N.tells nor.old →
        OnOk result (into.new ≡ slice_range (N.bytes nor.old) (page * g.now.page + start) (page * g.now.page + start + length into.old)) }
    ensures once { N.device_reads nor.new ≤ N.device_reads nor.old + 1 }
    ensures cause { OnErr result (Rose (N.faults nor.old) (N.faults nor.new)) }
    ensures only_reads { OnlyReads N.NorState nor.old nor.new }
    ensures hit { holds g.now frames.old page ≡ true → IsOk result × (nor.new ≡ nor.old) × (frames.new ≡ frames.old) }
    ensures spares { the_frame_count g.now frames.old < page_count g.now → frames.new ≡ frames.old }
    ensures stays { Stays g.now frames.old frames.new }
    ensures few { FewReads N.NorState g.now nor.old frames.old nor.new frames.new }
    ensures kept { IsKept N.NorState g.now nor.new frames.new }
{
    if is_whole(g, frames) {
        return read_within(g, nor, frames, page, start, into);
    }
    if let Some(f) = find(g, frames, page) {
        let first = HEAD + start;
        let behind = first + into.len();
        into.copy_from_slice(&frame(g, frames, f)[first..behind]);
        return Ok(());
    }
    nor.read(u32::from(page) * g.page() + start as u32, into)
}

/// Reads a page of the volume so.
pub fn read_page<N: Nor>(
    g: &Geometry,
    nor: &mut N,
    frames: &mut [u8],
    page: u16,
    into: &mut [u8],
) -> Result<(), Failed>
    requires need { cache_need g.now ≤ length frames.old }
    requires page { page < page_count g.now }
    requires whole { length into.old ≡ g.now.page }
    requires volume { g.now.blocks * g.now.block ≤ N.size nor.old }
    requires kept { IsKept N.NorState g.now nor.old frames.old }
    ensures read { N.tells nor.old → OnOk result (into.new ≡ slice_range (N.bytes nor.old) (page * g.now.page) (page * g.now.page + g.now.page)) }
    ensures once { N.device_reads nor.new ≤ N.device_reads nor.old + 1 }
    ensures cause { OnErr result (Rose (N.faults nor.old) (N.faults nor.new)) }
    ensures only_reads { OnlyReads N.NorState nor.old nor.new }
    ensures hit { holds g.now frames.old page ≡ true → IsOk result × (nor.new ≡ nor.old) × (frames.new ≡ frames.old) }
    ensures spares { the_frame_count g.now frames.old < page_count g.now → frames.new ≡ frames.old }
    ensures stays { Stays g.now frames.old frames.new }
    ensures few { FewReads N.NorState g.now nor.old frames.old nor.new frames.new }
    ensures kept { IsKept N.NorState g.now nor.new frames.new }
{
    peek_page(g, nor, frames, page, 0, into)
}

/// Reads bytes as `Nor::read` does. Bytes that lie in one page of the volume come from its copy, and the page is held afterwards;
/// others come from the device, and no frame changes.
pub fn read_through<N: Nor>(
    g: &Geometry,
    nor: &mut N,
    frames: &mut [u8],
    at: u32,
    into: &mut [u8],
) -> Result<(), Failed>
    requires need { cache_need g.now ≤ length frames.old }
    requires some { 0 < length into.old }
    requires inside { at + length into.old ≤ N.size nor.old }
    requires volume { g.now.blocks * g.now.block ≤ N.size nor.old }
    requires kept { IsKept N.NorState g.now nor.old frames.old }
    ensures read { N.tells nor.old → OnOk result (into.new ≡ slice_range (N.bytes nor.old) at (at + length into.old)) }
    ensures counted { N.device_reads nor.new ≤ N.device_reads nor.old + 1 }
    ensures cause { OnErr result (Rose (N.faults nor.old) (N.faults nor.new)) }
    ensures only_reads { OnlyReads N.NorState nor.old nor.new }
    ensures hit { InOnePage g.now at (length into.old) → holds g.now frames.old (at / g.now.page) ≡ true →
        IsOk result × (nor.new ≡ nor.old) × (frames.new ≡ frames.old) }
    ensures held { InOnePage g.now at (length into.old) → OnOk result (holds g.now frames.new (at / g.now.page) ≡ true) }
    ensures stays { Stays g.now frames.old frames.new }
    ensures few { InOnePage g.now at (length into.old) → FewReads N.NorState g.now nor.old frames.old nor.new frames.new }
    ensures kept { IsKept N.NorState g.now nor.new frames.new }
{
    let page = at / g.page();
    let start = (at % g.page()) as usize;
    if page < g.pages() && start + into.len() <= g.page() as usize {
        return read_within(g, nor, frames, page as u16, start, into);
    }
    nor.read(at, into)
}

/// Programs bytes as `Nor::program` does. No page is read: the copies go with the program. Where it failed, the pages that hold
/// bytes of its range are given up, and no others.
pub fn program_through<N: Nor>(
    g: &Geometry,
    nor: &mut N,
    frames: &mut [u8],
    at: u32,
    from: &[u8],
) -> Result<(), Failed>
    requires need { cache_need g.now ≤ length frames.old }
    requires some { 0 < length from.now }
    requires inside { at + length from.now ≤ N.size nor.old }
    requires kept { IsKept N.NorState g.now nor.old frames.old }
    ensures done { N.tells nor.old → OnOk result (N.bytes nor.new ≡ programmed (N.bytes nor.old) at from.now) }
    ensures changes { Changes N.NorState nor.old nor.new (HalfProgrammed at from.now) }
    ensures cause { OnErr result (Rose (N.faults nor.old) (N.faults nor.new)) }
    ensures writes { Writes N.NorState nor.old nor.new }
    ensures stays { OnOk result (KeepsHeld g.now frames.old frames.new) }
    ensures outside { OnErr result (KeepsOutside g.now at (length from.now) frames.old frames.new) }
    ensures few { FewReads N.NorState g.now nor.old frames.old nor.new frames.new }
    ensures kept { IsKept N.NorState g.now nor.new frames.new }
{
    match nor.program(at, from) {
        Ok(()) => {
            follow_all(g, frames, at as usize, Event::Program(from));
            Ok(())
        }
        Err(failed) => {
            bound_all(g, frames, 0);
            follow_all(g, frames, at as usize, Event::Failure(from.len()));
            Err(failed)
        }
    }
}

/// Erases a unit as `Nor::erase` does. No page is read: the copies go with the erase. Where it failed, the pages that hold bytes of
/// the unit are given up, and no others.
pub fn erase_through<N: Nor>(
    g: &Geometry,
    nor: &mut N,
    frames: &mut [u8],
    unit_ix: u32,
    mark: Option<Mark>,
) -> Result<(), Failed>
    requires need { cache_need g.now ≤ length frames.old }
    requires inside { unit_ix < N.size nor.old / N.unit nor.old }
    requires marked { ForSome mark (λ m. m.at + 2 ≤ N.unit nor.old) }
    requires kept { IsKept N.NorState g.now nor.old frames.old }
    ensures done { N.tells nor.old → OnOk result (N.bytes nor.new ≡ erased (N.bytes nor.old) (unit_ix * N.unit nor.old) (N.unit nor.old)) }
    ensures half { N.tells nor.old → OnErr result (HalfErased (unit_ix * N.unit nor.old) (N.unit nor.old) mark (N.bytes nor.old) (N.bytes nor.new)) }
    ensures cause { OnErr result (Rose (N.faults nor.old) (N.faults nor.new)) }
    ensures writes { Writes N.NorState nor.old nor.new }
    ensures changes { Changes N.NorState nor.old nor.new (InErase N.NorState nor.old nor.new unit_ix mark) }
    ensures stays { OnOk result (KeepsHeld g.now frames.old frames.new) }
    ensures outside { OnErr result (KeepsOutside g.now (unit_ix * N.unit nor.old) (N.unit nor.old) frames.old frames.new) }
    ensures few { FewReads N.NorState g.now nor.old frames.old nor.new frames.new }
    ensures kept { IsKept N.NorState g.now nor.new frames.new }
{
    let unit = nor.unit() as usize;
    let at = unit_ix as usize * unit;
    match nor.erase(unit_ix, mark) {
        Ok(()) => {
            follow_all(g, frames, at, Event::Erase(unit));
            Ok(())
        }
        Err(failed) => {
            bound_all(g, frames, 0);
            follow_all(g, frames, at, Event::Failure(unit));
            Err(failed)
        }
    }
}
