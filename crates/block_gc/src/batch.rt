// Moving data pages out of a block in batches: the pages of one file that one index page names.
ghost use Rattle.std.specs.Prelude.{◌≡◌, ◌+◌, ◌*◌, ◌%◌, ◌<◌, ◌≤◌, ◌==◌, ◌&&◌, not, OnErr, OnOk, IfOk, IfSome, List, take, true, ℕ};
ghost use Rattle.geometry.specs.Numbers.{page_count, per_block};
ghost use Rattle.nor_core.specs.Count.{Rose};
ghost use Rattle.image_model.specs.Kinds.{is_data_page, is_index_page};
ghost use Rattle.image_model.specs.Live.{live_at};
ghost use Rattle.image_model.specs.Places.{block_of as the_block_of};
ghost use Rattle.image_model.specs.Tidy.{IsTidy};
ghost use Rattle.flash_view.specs.Places.{IsEntryPage};
ghost use Rattle.flash_view.specs.Same.{OnlyLooks};
ghost use Rattle.flash_view.specs.Steps.{Stepped, failed, stopped};
ghost use Rattle.page_renew.specs.Built.{IsLoaded};
ghost use Rattle.block_gc.specs.Programs.{SixEach, NoneBefore};
ghost use Rattle.block_gc.specs.Turns.{CanMoveBatch, moving_batch};
ghost use Rattle.block_gc.specs.Batches.{Carried, below, HasCopies, IsTurnOf, IsCopyFrom, IsFoundFor, IsSpanOf, AreNamed, IsNamedCopy};
ghost use Rattle.block_gc.specs.Batches.{carrying_to, carrying, carrying_turn, carrying_batch, renaming_to, renaming, dropping_turn, dropping_all};
ghost use Rattle.block_gc.specs.Batches.{ending_batch};
ghost use Rattle.block_gc.specs.Batches.{CanMoveFrom, moving_from};

use crate::emptying::no_place;
use flash_view::{Kind, StepErr, View, block_of, is_entry_page};
use free_search::free_page;
use geometry::Geometry;
use nor_core::{Failed, Nor, NorState};
use page_layout::{PageHeader, index_span};
use page_put::{kill, put_page};
use page_renew::{build_copy, build_data, name_page, put_over, seek_index};
use table_model::Tag;

// The data pages of a block that one index page names: that page, the id of its file, and its span.
#[derive(Clone, Copy)]
struct Batch {
    index: u16,
    id: u16,
    span: u16,
}

// The copies of a batch's pages: those of all its pages before page `end` were put, `count` of them, the first one at page `near`.
// Which page has the copy of which one is noted nowhere: a copy has the id and the span of its page and lies outside the block.
#[derive(Clone, Copy)]
struct Run {
    end: u16,
    count: u32,
    near: u16,
}

// The id of the file whose index page has this header. The id in a header is a word.
fn file_id(head: PageHeader) -> u16
    ensures id { result ≡ head.id % 0x8000 }
    ensures word { head.id < 65536 }
{
    head.object()
}

// The index page with the entry of a data page, and the data page's id and span: nothing where the page is that of no file.
#[tactic(auto, using(flash_view::proofs::Looking::looks_then))]
fn index_of<N: Nor>(v: &mut View<'_, N>, page: u16) -> Result<Option<(u16, Tag)>, Failed>
    requires page { page < page_count v.old.geometry }
    ensures cause { OnErr result (Rose (N.faults v.old.nor.now) (N.faults v.new.nor.now)) }
    ensures looks { OnlyLooks v.old v.new }
    ensures entry { IfOk result (λ found. IfSome found (λ f. IsEntryPage v.old.geometry f.0)) }
    ensures id { IfOk result (λ found. IfSome found (λ f. (1 ≤ f.1.id) × (f.1.id ≤ 0x7FFE))) }
    ensures told { N.tells v.old.nor.now → IsTidy v.old.geometry (N.bytes v.old.nor.now) → is_data_page (live_at v.old.geometry (N.bytes v.old.nor.now) page)
        ≡ true → IfOk result (λ found. IsFoundFor v.old.geometry (N.bytes v.old.nor.now) page found) }
{
    let head = v.header(page)?;
    let span = index_span(&v.geometry, head.span);
    let Some(index) = seek_index(v, head.object(), u32::from(span))? else {
        return Ok(None);
    };
    let id = file_id(v.header(index)?);
    if id == 0 || id > 0x7FFE || !is_entry_page(&v.geometry, index) {
        return Ok(None);
    }
    let tag = Tag {
        id,
        span: head.span,
    };
    Ok(Some((index, tag)))
}

// Puts the copy of a data page that was built at `to`: four programs.
fn put_copy<N: Nor>(
    v: &mut View<'_, N>,
    page: u16,
    to: u16,
    batch: Batch,
    span: u16,
) -> Result<(), Failed>
    requires to { IsEntryPage v.old.geometry to }
    requires id { (1 ≤ batch.id) × (batch.id ≤ 0x7FFE) }
    requires loaded { N.tells v.old.nor.now → IsLoaded v.old.geometry (N.bytes v.old.nor.now) page v.old.work.now }
    ensures step { (was : List ℕ) (block most : ℕ) → Stepped failed v.old v.new result (carrying_to was block most batch page to span) }
    ensures few { N.device_writes v.new.nor.now ≤ N.device_writes v.old.nor.now + 4 }
{
    put_page(v, to, Kind::Data, Tag { id: batch.id, span })
}

// Puts a copy of a data page at `to`.
fn copy_to<N: Nor>(
    v: &mut View<'_, N>,
    page: u16,
    to: u16,
    batch: Batch,
    span: u16,
) -> Result<(), Failed>
    requires page { page < page_count v.old.geometry }
    requires to { IsEntryPage v.old.geometry to }
    requires id { (1 ≤ batch.id) × (batch.id ≤ 0x7FFE) }
    ensures step { (was : List ℕ) (block most : ℕ) → Stepped failed v.old v.new result (carrying_to was block most batch page to span) }
    ensures few { N.device_writes v.new.nor.now ≤ N.device_writes v.old.nor.now + 4 }
{
    build_data(v, page)?;
    put_copy(v, page, to, batch, span)
}

// Carries a data page of a batch: finds a place outside the block and puts a copy there. The place.
fn carry<N: Nor>(
    v: &mut View<'_, N>,
    page: u16,
    span: u16,
    block: u16,
    batch: Batch,
) -> Result<u16, StepErr>
    requires page { page < page_count v.old.geometry }
    requires id { (1 ≤ batch.id) × (batch.id ≤ 0x7FFE) }
    ensures step { (was : List ℕ) (most : ℕ) → Stepped stopped v.old v.new result (carrying was block most batch page span) }
    ensures few { OnOk result (N.device_writes v.new.nor.now ≤ N.device_writes v.old.nor.now + 4) }
{
    let Some(to) = free_page(v, Kind::Data, 0, Some(block))? else {
        return Err(StepErr::Damaged(no_place(page)));
    };
    copy_to(v, page, to, batch, span)?;
    Ok(to)
}

// The span of a page, where it is a live data page of a batch.
#[tactic(auto, using(flash_view::proofs::Looking::looks_then))]
fn span_in<N: Nor>(v: &mut View<'_, N>, page: u16, batch: Batch) -> Result<Option<u16>, Failed>
    requires page { page < page_count v.old.geometry }
    ensures cause { OnErr result (Rose (N.faults v.old.nor.now) (N.faults v.new.nor.now)) }
    ensures looks { OnlyLooks v.old v.new }
    ensures told { N.tells v.old.nor.now → IfOk result (IsSpanOf v.old.geometry (N.bytes v.old.nor.now) batch page) }
    ensures work { v.new.work.now ≡ v.old.work.now }
{
    let Some(head) = v.live_header(page)? else {
        return Ok(None);
    };
    let same = index_span(&v.geometry, head.span) == batch.span;
    if head.is_index() || head.object() != batch.id || !same {
        return Ok(None);
    }
    Ok(Some(head.span))
}

// The copies with one more: that of a page, at `to`.
fn with_one(run: Run, page: u16, to: u16) -> Run
    requires page { page < 65535 }
    requires count { run.count < 0xFFFFFFFF }
    ensures end { result.end ≡ page + 1 }
    ensures count { result.count ≡ run.count + 1 }
{
    let near = if run.count == 0 { to } else { run.near };
    Run {
        end: page + 1,
        count: run.count + 1,
        near,
    }
}

// The turn of a page: it is carried where it is one of the batch and there is room.
fn carry_turn<N: Nor>(
    v: &mut View<'_, N>,
    page: u16,
    block: u16,
    batch: Batch,
    most: u32,
    run: Run,
) -> Result<Run, StepErr>
    requires page { IsEntryPage v.old.geometry page }
    requires id { (1 ≤ batch.id) × (batch.id ≤ 0x7FFE) }
    requires end { run.end ≤ page }
    ensures end { IfOk result (λ new. new.end ≤ page + 1) }
    ensures step { (was : List ℕ) (first : ℕ) → Stepped stopped v.old v.new result (carrying_turn was block most batch first page run) }
    ensures few { IfOk result (λ new. N.device_writes v.new.nor.now + 4 * run.count ≤ N.device_writes v.old.nor.now + 4 * new.count) }
{
    if run.count >= most {
        return Ok(run);
    }
    let Some(span) = span_in(v, page, batch)? else {
        return Ok(run);
    };
    let to = carry(v, page, span, block, batch)?;
    Ok(with_one(run, page, to))
}

// The page behind a block.
fn behind(g: &Geometry, block: u16) -> u16
    requires { block < g.now.blocks }
    ensures { result ≡ (block + 1) * per_block g.now }
{
    ((u32::from(block) + 1) * g.per_block()) as u16
}

// Carries the pages of the batch that a page begins, in page order, at most so many: their copies.
fn carry_all<N: Nor>(
    v: &mut View<'_, N>,
    first: u16,
    block: u16,
    batch: Batch,
    most: u32,
) -> Result<Run, StepErr>
    requires first { IsEntryPage v.old.geometry first }
    requires at { the_block_of v.old.geometry first ≡ block }
    requires id { (1 ≤ batch.id) × (batch.id ≤ 0x7FFE) }
    ensures end { IfOk result (λ run. run.end ≤ (block + 1) * per_block v.old.geometry) }
    ensures step { (span : ℕ) → Stepped stopped v.old v.new result (carrying_batch block most batch first span) }
    ensures few { IfOk result (λ run. N.device_writes v.new.nor.now ≤ N.device_writes v.old.nor.now + 4 * run.count) }
{
    let mut run = Run {
        end: first,
        count: 0,
        near: 0,
    };
    for page in first..behind(&v.geometry, block) {
        run = carry_turn(v, page, block, batch, most, run)?;
    }
    Ok(run)
}

// Whether a page with this header has that span and lies outside a block.
fn is_copy(g: &Geometry, page: u16, head: PageHeader, span: u16, block: u16) -> bool
    requires { page < page_count g.now }
    ensures { result ≡ ((head.span == span) && not (the_block_of g.now page == block)) }
{
    head.span == span && block_of(g, page) != block
}

// A live data page of an id and a span that lies outside a block, from page `from` on (the first, which no clause says).
#[tactic(auto, using(flash_view::proofs::Looking::looks_then))]
fn copy_from<N: Nor>(
    v: &mut View<'_, N>,
    id: u16,
    span: u16,
    block: u16,
    from: u32,
) -> Result<Option<u16>, Failed>
    requires id { id ≤ 0x7FFE }
    ensures cause { OnErr result (Rose (N.faults v.old.nor.now) (N.faults v.new.nor.now)) }
    ensures looks { OnlyLooks v.old v.new }
    ensures told { N.tells v.old.nor.now → IfOk result (λ found. IsCopyFrom v.old.geometry (N.bytes v.old.nor.now) id span block from found) }
    ensures work { v.new.work.now ≡ v.old.work.now }
{
    let mut at = from;
    'pages: while let Some((page, head)) = v.next_live(at, id, id)? {
        if is_copy(&v.geometry, page, head, span, block) {
            return Ok(Some(page));
        }
        at = u32::from(page) + 1;
    }
    Ok(None)
}

// A live data page of an id and a span that lies outside a block. The pages from page `near` on come first.
#[tactic(auto, using(flash_view::proofs::Looking::looks_then))]
fn find_copy<N: Nor>(
    v: &mut View<'_, N>,
    id: u16,
    span: u16,
    block: u16,
    near: u16,
) -> Result<Option<u16>, Failed>
    requires id { id ≤ 0x7FFE }
    ensures cause { OnErr result (Rose (N.faults v.old.nor.now) (N.faults v.new.nor.now)) }
    ensures looks { OnlyLooks v.old v.new }
    ensures told { N.tells v.old.nor.now → IfOk result (λ found. IsCopyFrom v.old.geometry (N.bytes v.old.nor.now) id span block 0 found) }
    ensures work { v.new.work.now ≡ v.old.work.now }
{
    if let Some(page) = copy_from(v, id, span, block, u32::from(near))? {
        return Ok(Some(page));
    }
    copy_from(v, id, span, block, 0)
}

// The turn of a page whose copy was put: the copy is named in the index page that is built. From which page on the next copy is
// looked for first.
#[tactic(auto, using(flash_view::proofs::Looking::looks_then, flash_view::proofs::Looking::looks_none))]
fn name_turn<N: Nor>(
    v: &mut View<'_, N>,
    page: u16,
    block: u16,
    batch: Batch,
    near: u16,
) -> Result<u16, Failed>
    requires page { page < page_count v.old.geometry }
    requires id { batch.id ≤ 0x7FFE }
    ensures cause { OnErr result (Rose (N.faults v.old.nor.now) (N.faults v.new.nor.now)) }
    ensures looks { OnlyLooks v.old v.new }
    ensures told { N.tells v.old.nor.now → (was plain : List ℕ) (most first : ℕ) (run : Run) (cs : List Carried) →
        HasCopies v.old.geometry was block most batch first run cs (N.bytes v.old.nor.now) → IsTurnOf v.old.geometry block first run page →
        AreNamed v.old.geometry plain (below page cs) (take v.old.geometry.page v.old.work.now) →
        OnOk result (AreNamed v.old.geometry plain (below (page + 1) cs) (take v.old.geometry.page v.new.work.now)) }
{
    let Some(span) = span_in(v, page, batch)? else {
        return Ok(near);
    };
    let Some(to) = find_copy(v, batch.id, span, block, near)? else {
        return Ok(near);
    };
    name_page(v, span, to);
    Ok(to.saturating_add(1))
}

// Names the copies of a batch's pages in the index page that is built.
#[tactic(auto, using(flash_view::proofs::Looking::looks_then, flash_view::proofs::Looking::looks_none))]
fn name_all<N: Nor>(
    v: &mut View<'_, N>,
    first: u16,
    block: u16,
    batch: Batch,
    run: Run,
) -> Result<(), Failed>
    requires first { IsEntryPage v.old.geometry first }
    requires at { the_block_of v.old.geometry first ≡ block }
    requires end { run.end ≤ (block + 1) * per_block v.old.geometry }
    requires id { batch.id ≤ 0x7FFE }
    ensures cause { OnErr result (Rose (N.faults v.old.nor.now) (N.faults v.new.nor.now)) }
    ensures looks { OnlyLooks v.old v.new }
    ensures told { N.tells v.old.nor.now → (was : List ℕ) (most : ℕ) (cs : List Carried) → HasCopies v.old.geometry was block most batch first run cs
        (N.bytes v.old.nor.now) → OnOk result (AreNamed v.old.geometry (take v.old.geometry.page v.old.work.now) cs (take v.old.geometry.page v.new.work.now)) }
{
    let mut near = run.near;
    for page in first..run.end {
        near = name_turn(v, page, block, batch, near)?;
    }
    Ok(())
}

// Builds the copy of a batch's index page that names the copies of its pages.
#[tactic(auto, using(flash_view::proofs::Looking::looks_then))]
fn build_named<N: Nor>(
    v: &mut View<'_, N>,
    first: u16,
    block: u16,
    batch: Batch,
    run: Run,
) -> Result<(), Failed>
    requires index { batch.index < page_count v.old.geometry }
    requires first { IsEntryPage v.old.geometry first }
    requires at { the_block_of v.old.geometry first ≡ block }
    requires end { run.end ≤ (block + 1) * per_block v.old.geometry }
    requires id { batch.id ≤ 0x7FFE }
    ensures cause { OnErr result (Rose (N.faults v.old.nor.now) (N.faults v.new.nor.now)) }
    ensures looks { OnlyLooks v.old v.new }
    ensures told { N.tells v.old.nor.now → is_index_page (live_at v.old.geometry (N.bytes v.old.nor.now) batch.index) ≡ true →
        (was : List ℕ) (most : ℕ) (cs : List Carried) → HasCopies v.old.geometry was block most batch first run cs (N.bytes v.old.nor.now) →
        OnOk result (IsNamedCopy v.old.geometry (N.bytes v.old.nor.now) batch.index cs v.new.work.now) }
{
    build_copy(v, batch.index)?;
    name_all(v, first, block, batch, run)
}

// Renews the index page of a batch at `to`, where it names the copies.
fn rename_to<N: Nor>(
    v: &mut View<'_, N>,
    to: u16,
    first: u16,
    block: u16,
    batch: Batch,
    run: Run,
) -> Result<(), Failed>
    requires to { IsEntryPage v.old.geometry to }
    requires index { IsEntryPage v.old.geometry batch.index }
    requires first { IsEntryPage v.old.geometry first }
    requires at { the_block_of v.old.geometry first ≡ block }
    requires end { run.end ≤ (block + 1) * per_block v.old.geometry }
    requires id { (1 ≤ batch.id) × (batch.id ≤ 0x7FFE) }
    ensures step { (was : List ℕ) (most : ℕ) → Stepped failed v.old v.new result (renaming_to was block most batch first to run) }
    ensures few { N.device_writes v.new.nor.now ≤ N.device_writes v.old.nor.now + 6 }
{
    build_named(v, first, block, batch, run)?;
    let tag = Tag {
        id: batch.id,
        span: batch.span,
    };
    put_over(v, to, tag, batch.index)
}

// Renews the index page of a batch outside the block: six programs.
fn rename<N: Nor>(
    v: &mut View<'_, N>,
    first: u16,
    block: u16,
    batch: Batch,
    run: Run,
) -> Result<(), StepErr>
    requires index { IsEntryPage v.old.geometry batch.index }
    requires first { IsEntryPage v.old.geometry first }
    requires at { the_block_of v.old.geometry first ≡ block }
    requires end { run.end ≤ (block + 1) * per_block v.old.geometry }
    requires id { (1 ≤ batch.id) × (batch.id ≤ 0x7FFE) }
    ensures step { (was : List ℕ) (most : ℕ) → Stepped stopped v.old v.new result (renaming was block most batch first run) }
    ensures few { N.device_writes v.new.nor.now ≤ N.device_writes v.old.nor.now + 6 }
{
    let Some(to) = free_page(v, Kind::Index, 0, Some(block))? else {
        return Err(StepErr::Damaged(no_place(first)));
    };
    Ok(rename_to(v, to, first, block, batch, run)?)
}

// The turn of a page whose copy was put, where `left` such pages are to be killed still: it is killed. How many are left then.
fn drop_turn<N: Nor>(v: &mut View<'_, N>, page: u16, batch: Batch, left: u32) -> Result<u32, Failed>
    requires page { IsEntryPage v.old.geometry page }
    ensures step { (was : List ℕ) (block most first : ℕ) (run : Run) →
        Stepped failed v.old v.new result (dropping_turn was block most batch first run page left) }
    ensures few { IfOk result (λ rest. N.device_writes v.new.nor.now + 2 * rest ≤ N.device_writes v.old.nor.now + 2 * left) }
    ensures fails { N.device_writes v.new.nor.now ≤ N.device_writes v.old.nor.now + 2 * left }
{
    if left == 0 {
        return Ok(left);
    }
    let Some(_span) = span_in(v, page, batch)? else {
        return Ok(left);
    };
    kill(v, page)?;
    Ok(left - 1)
}

// Kills the pages whose copies were put, the last one first.
fn drop_all<N: Nor>(
    v: &mut View<'_, N>,
    first: u16,
    block: u16,
    batch: Batch,
    run: Run,
) -> Result<(), Failed>
    requires first { IsEntryPage v.old.geometry first }
    requires at { the_block_of v.old.geometry first ≡ block }
    requires end { run.end ≤ (block + 1) * per_block v.old.geometry }
    ensures step { (was : List ℕ) (most : ℕ) → Stepped failed v.old v.new result (dropping_all was block most batch first run) }
    ensures few { N.device_writes v.new.nor.now ≤ N.device_writes v.old.nor.now + 2 * run.count }
{
    let mut left = run.count;
    for page in first..run.end {
        left = drop_turn(v, run.end - 1 - (page - first), batch, left)?;
    }
    Ok(())
}

// Ends a batch all of whose pages were carried: renews its index page, and kills the old pages.
fn end_batch<N: Nor>(
    v: &mut View<'_, N>,
    first: u16,
    block: u16,
    batch: Batch,
    run: Run,
) -> Result<(), StepErr>
    requires index { IsEntryPage v.old.geometry batch.index }
    requires first { IsEntryPage v.old.geometry first }
    requires at { the_block_of v.old.geometry first ≡ block }
    requires end { run.end ≤ (block + 1) * per_block v.old.geometry }
    requires id { (1 ≤ batch.id) × (batch.id ≤ 0x7FFE) }
    ensures step { (was : List ℕ) (most : ℕ) → Stepped stopped v.old v.new result (ending_batch was block most batch first run) }
    ensures few { N.device_writes v.new.nor.now ≤ N.device_writes v.old.nor.now + 6 + 2 * run.count }
{
    rename(v, first, block, batch, run)?;
    Ok(drop_all(v, first, block, batch, run)?)
}

// Moves the batch that a page begins out of the block.
fn move_from<N: Nor>(
    v: &mut View<'_, N>,
    page: u16,
    block: u16,
    batch: Batch,
    most: u32,
) -> Result<(), StepErr>
    requires page { IsEntryPage v.old.geometry page }
    requires at { the_block_of v.old.geometry page ≡ block }
    requires index { IsEntryPage v.old.geometry batch.index }
    requires id { (1 ≤ batch.id) × (batch.id ≤ 0x7FFE) }
    ensures step { (span : ℕ) → Stepped stopped v.old v.new result (moving_from block most batch page span) }
    ensures few { (span : ℕ) → N.tells v.old.nor.now → CanMoveFrom v.old.geometry (N.bytes v.old.nor.now) block most batch page span →
        NoneBefore v.old.geometry (N.bytes v.old.nor.now) block page → OnOk result
        (SixEach v.old.geometry block most (N.bytes v.old.nor.now) (N.bytes v.new.nor.now) (N.device_writes v.old.nor.now) (N.device_writes v.new.nor.now)) }
{
    let run = carry_all(v, page, block, batch, most)?;
    end_batch(v, page, block, batch, run)
}

/// Moves the batch that a live data page of a block begins out of the block: that page and those behind it in page order
/// that the same index page names, at most so many. Each copy is put first, then the index page that names them all; then the old
/// index page is killed, and then the old data pages. A cut leaves the table as it is. Each page takes six programs, and the
/// index page six more.
pub(crate) fn move_batch<N: Nor>(
    v: &mut View<'_, N>,
    page: u16,
    block: u16,
    most: u32,
) -> Result<(), StepErr>
    requires page { IsEntryPage v.old.geometry page }
    requires at { the_block_of v.old.geometry page ≡ block }
    requires most { 1 ≤ most }
    ensures step { Stepped stopped v.old v.new result (moving_batch block most page) }
    ensures few { N.tells v.old.nor.now → CanMoveBatch v.old.geometry (N.bytes v.old.nor.now) block page →
        NoneBefore v.old.geometry (N.bytes v.old.nor.now) block page → OnOk result
        (SixEach v.old.geometry block most (N.bytes v.old.nor.now) (N.bytes v.new.nor.now) (N.device_writes v.old.nor.now) (N.device_writes v.new.nor.now)) }
{
    let Some((index, tag)) = index_of(v, page)? else {
        return Ok(());
    };
    let batch = Batch {
        index,
        id: tag.id,
        span: index_span(&v.geometry, tag.span),
    };
    move_from(v, page, block, batch, most)
}
