ghost use Rattle.std.specs.Prelude.{◌≡◌, ℕ, List, ◌+◌, ◌-◌, ◌*◌, ◌/◌, ◌%◌, ◌^◌, ◌<◌, ◌≤◌, length, slice_range, is_some, true, unwrap_or, [], Some, OnOk, IfOk};
ghost use Rattle.std.specs.Prelude.{IfErr, IfSome, OnErr, IsErrOf};
ghost use Rattle.std.specs.Option.{option_map};
ghost use Rattle.geometry.specs.Numbers.{page_count, body};
ghost use Rattle.nor_core.specs.Count.{Rose};
ghost use Rattle.table_model.specs.Table.{File};
ghost use Rattle.table_model.specs.Files.{bytes_at};
ghost use Rattle.image_model.specs.Places.{page_of};
ghost use Rattle.image_model.specs.Headers.{size_of};
ghost use Rattle.image_model.specs.Live.{live_at, own};
ghost use Rattle.image_model.specs.Files.{index_page, index_span};
ghost use Rattle.flash_view.specs.Same.{OnlyLooks};
ghost use Rattle.file_read.specs.Whole.{IsFileOf, IsFileAt, IsRead, Reading};
ghost use Rattle.file_read.specs.Spans.{named_page};
ghost use Rattle.file_read.specs.Missing.{IsNoPage, IsMissing, HoldsOrFault};

use flash_view::{StepErr, View};
use nor_core::{Failed, Nor, NorState};
use page_layout::{BODY_AT, INDEX_BIT, UNDEFINED_SIZE, entry_place, wide_index_span};
use table_model::{Differ, Tag};

/// That no header page of a file was found where one was wanted: no page number, and an id and a span that no page has.
pub fn no_header(id: u16) -> Differ
    ensures { IsNoPage id result }
{
    Differ::no_page(Tag {
        id: id % INDEX_BIT + INDEX_BIT,
        span: 0,
    })
}

/// That no data page of an object and a span was found. A span that no page can have is told as 0xFFFF.
pub fn no_data(id: u16, span: u32) -> Differ
    ensures { IsNoPage id result }
{
    Differ::no_page(Tag {
        id: id % INDEX_BIT,
        span: span.min(0xFFFF) as u16,
    })
}

// The data page of a span that an index page names, where there is one.
#[tactic(auto, using(flash_view::proofs::Looking::looks_then))]
fn find_data<N: Nor>(
    v: &mut View<'_, N>,
    id: u16,
    span: u32,
    index: u16,
) -> Result<Option<u16>, Failed>
    requires { index < page_count v.old.geometry }
    ensures cause { OnErr result (Rose (N.faults v.old.nor.now) (N.faults v.new.nor.now)) }
    ensures looks { OnlyLooks v.old v.new }
    ensures inside { IfOk result (λ page. IfSome page (λ p. p < page_count v.old.geometry)) }
    ensures told { N.tells v.old.nor.now → IfOk result
        (λ page. option_map (λ p. page_of v.old.geometry (N.bytes v.old.nor.now) p) page ≡ named_page v.old.geometry (N.bytes v.old.nor.now) id index span) }
{
    let at = entry_place(&v.geometry, span);
    let page = v.word_in(index, at)?;
    Ok(if v.is_data_of(page, id, span)? {
        Some(page)
    } else {
        None
    })
}

// Reads bytes of the data page of a span, of which an index page has the number: from byte `from` of its file
// bytes on, as many as `part` holds.
#[tactic(auto, using(flash_view::proofs::Looking::looks_then))]
fn read_span<N: Nor>(
    v: &mut View<'_, N>,
    id: u16,
    span: u32,
    index: u16,
    from: u32,
    part: &mut [u8],
) -> Result<(), StepErr>
    requires index { index < page_count v.old.geometry }
    requires some { 0 < length part.old }
    requires inside { from + length part.old ≤ body v.old.geometry }
    ensures cause { IsErrOf result StepErr.DeviceFault → Rose (N.faults v.old.nor.now) (N.faults v.new.nor.now) }
    ensures looks { OnlyLooks v.old v.new }
    ensures missing { IfErr result (IsMissing id) }
    ensures told { N.tells v.old.nor.now → (page : List ℕ) → named_page v.old.geometry (N.bytes v.old.nor.now) id index span ≡ Some page →
        HoldsOrFault result (λ done. part.new ≡ slice_range page (5 + from) (5 + from + length part.old)) }
{
    let Some(page) = find_data(v, id, span, index)? else {
        return Err(StepErr::Damaged(no_data(id, span)));
    };
    v.read_in(page, BODY_AT + from, part)?;
    Ok(())
}

// Reads on to the end of a data page, or of what is asked. The answer is how many bytes there are now.
#[tactic(auto, using(flash_view::proofs::Looking::looks_then))]
fn read_piece<N: Nor>(
    v: &mut View<'_, N>,
    id: u16,
    index: u16,
    at: u32,
    done: usize,
    into: &mut [u8],
) -> Result<usize, StepErr>
    requires index { index < page_count v.old.geometry }
    requires some { done < length into.old }
    requires fits { at + length into.old < 2 ^ 32 }
    ensures cause { IsErrOf result StepErr.DeviceFault → Rose (N.faults v.old.nor.now) (N.faults v.new.nor.now) }
    ensures looks { OnlyLooks v.old v.new }
    ensures missing { IfErr result (IsMissing id) }
    ensures more { IfOk result (λ n. (done < n) × (n ≤ length into.old)) }
    ensures told { N.tells v.old.nor.now → (f : File) → Reading v.old.geometry (N.bytes v.old.nor.now) id f at done into.old →
        index_page v.old.geometry (own (live_at v.old.geometry (N.bytes v.old.nor.now)) id) (index_span v.old.geometry ((at + done) / body v.old.geometry))
        ≡ Some index →
        HoldsOrFault result (λ n. Reading v.old.geometry (N.bytes v.old.nor.now) id f at n into.new) }
{
    let body = v.geometry.body();
    let place = at + done as u32;
    let from = place % body;
    let len = (into.len() - done).min((body - from) as usize);
    read_span(
        v,
        id,
        place / body,
        index,
        from,
        &mut into[done..done + len],
    )?;
    Ok(done + len)
}

// Reads on as long as one index page names the data pages.
#[tactic(auto, using(flash_view::proofs::Looking::looks_then))]
fn read_named<N: Nor>(
    v: &mut View<'_, N>,
    id: u16,
    index: u16,
    at: u32,
    done: usize,
    into: &mut [u8],
) -> Result<usize, StepErr>
    requires index { index < page_count v.old.geometry }
    requires some { done < length into.old }
    requires fits { at + length into.old < 2 ^ 32 }
    ensures cause { IsErrOf result StepErr.DeviceFault → Rose (N.faults v.old.nor.now) (N.faults v.new.nor.now) }
    ensures looks { OnlyLooks v.old v.new }
    ensures missing { IfErr result (IsMissing id) }
    ensures more { IfOk result (λ n. (done < n) × (n ≤ length into.old)) }
    ensures told { N.tells v.old.nor.now → (f : File) → Reading v.old.geometry (N.bytes v.old.nor.now) id f at done into.old →
        index_page v.old.geometry (own (live_at v.old.geometry (N.bytes v.old.nor.now)) id) (index_span v.old.geometry ((at + done) / body v.old.geometry))
        ≡ Some index →
        HoldsOrFault result (λ n. Reading v.old.geometry (N.bytes v.old.nor.now) id f at n into.new) }
{
    let g = v.geometry;
    let which = wide_index_span(&g, (at + done as u32) / g.body());
    let mut done = done;
    loop {
        done = read_piece(v, id, index, at, done, into)?;
        if done == into.len() || wide_index_span(&g, (at + done as u32) / g.body()) != which {
            return Ok(done);
        }
    }
}

// The index page that names the data page of a span; that of the first spans is the header page.
fn index_for<N: Nor>(v: &mut View<'_, N>, id: u16, header: u16, span: u32) -> Result<u16, StepErr>
    requires { header < page_count v.old.geometry }
    ensures cause { IsErrOf result StepErr.DeviceFault → Rose (N.faults v.old.nor.now) (N.faults v.new.nor.now) }
    ensures looks { OnlyLooks v.old v.new }
    ensures missing { IfErr result (IsMissing id) }
    ensures inside { IfOk result (λ page. page < page_count v.old.geometry) }
    ensures told { N.tells v.old.nor.now → (page : ℕ) → index_page v.old.geometry (own (live_at v.old.geometry (N.bytes v.old.nor.now)) id) 0 ≡ Some header →
        index_page v.old.geometry (own (live_at v.old.geometry (N.bytes v.old.nor.now)) id) (index_span v.old.geometry span) ≡ Some page →
        HoldsOrFault result (λ found. found ≡ page) }
{
    let which = wide_index_span(&v.geometry, span);
    if which == 0 {
        return Ok(header);
    }
    match v.find_span(id, which)? {
        Some(page) => Ok(page),
        None => Err(StepErr::Damaged(no_data(id, span))),
    }
}

// Reads bytes that lie inside the file. Each index page is found once.
#[tactic(auto, using(flash_view::proofs::Looking::looks_then))]
fn read_inside<N: Nor>(
    v: &mut View<'_, N>,
    id: u16,
    header: u16,
    at: u32,
    into: &mut [u8],
) -> Result<(), StepErr>
    requires header { header < page_count v.old.geometry }
    requires fits { at + length into.old < 2 ^ 32 }
    ensures cause { IsErrOf result StepErr.DeviceFault → Rose (N.faults v.old.nor.now) (N.faults v.new.nor.now) }
    ensures looks { OnlyLooks v.old v.new }
    ensures missing { IfErr result (IsMissing id) }
    ensures told { N.tells v.old.nor.now → (f : File) → IsFileOf v.old.geometry (N.bytes v.old.nor.now) id f → at + length into.old ≤ length f.bytes →
        index_page v.old.geometry (own (live_at v.old.geometry (N.bytes v.old.nor.now)) id) 0 ≡ Some header →
        HoldsOrFault result (λ done. into.new ≡ bytes_at (length into.old) at f) }
{
    let body = v.geometry.body();
    let mut done = 0;
    while done < into.len() {
        let index = index_for(v, id, header, (at + done as u32) / body)?;
        done = read_named(v, id, index, at, done, into)?;
    }
    Ok(())
}

/// The size of the file of a header page, in bytes: 0 where the page has none yet.
#[tactic(auto, using(flash_view::proofs::Looking::looks_then))]
pub fn size_in<N: Nor>(v: &mut View<'_, N>, header: u16) -> Result<u32, Failed>
    requires { header < page_count v.old.geometry }
    ensures cause { OnErr result (Rose (N.faults v.old.nor.now) (N.faults v.new.nor.now)) }
    ensures looks { OnlyLooks v.old v.new }
    ensures told { N.tells v.old.nor.now → IfOk result (λ size. size ≡ size_of (page_of v.old.geometry (N.bytes v.old.nor.now) header)) }
{
    let low = u32::from(v.word_in(header, 8)?);
    let size = low + u32::from(v.word_in(header, 10)?) * 0x1_0000;
    Ok(if size == UNDEFINED_SIZE { 0 } else { size })
}

/// The bytes of a whole file whose header page is known, as `read_at` gives them.
#[tactic(auto, using(flash_view::proofs::Looking::looks_then))]
pub fn read_from<N: Nor>(
    v: &mut View<'_, N>,
    id: u16,
    header: u16,
    at: u32,
    into: &mut [u8],
) -> Result<u32, StepErr>
    requires { header < page_count v.old.geometry }
    ensures cause { IsErrOf result StepErr.DeviceFault → Rose (N.faults v.old.nor.now) (N.faults v.new.nor.now) }
    ensures looks { OnlyLooks v.old v.new }
    ensures missing { IfErr result (IsMissing id) }
    ensures within { IfOk result (λ n. (n ≤ length into.old) × (at + n < 2 ^ 32)) }
    ensures told { N.tells v.old.nor.now → (f : File) → IsFileAt v.old.geometry (N.bytes v.old.nor.now) id header f →
        HoldsOrFault result (λ n. IsRead f at into.old into.new n) }
{
    let size = size_in(v, header)?;
    if at >= size {
        return Ok(0);
    }
    let count = into.len().min((size - at) as usize);
    read_inside(v, id, header, at, &mut into[..count])?;
    Ok(count as u32)
}

/// The bytes of a whole file from byte `at` on, as many as there are and fit; none at the file's end and past it. The
/// answer is how many bytes were read. What is refused beside a fault (`Damaged`) is a page that isn't there: the id has no
/// whole file, or the device doesn't tell its bytes. A file that has the name of another one is read too.
#[tactic(auto, using(flash_view::proofs::Looking::looks_then))]
pub fn read_at<N: Nor>(
    v: &mut View<'_, N>,
    id: u16,
    at: u32,
    into: &mut [u8],
) -> Result<u32, StepErr>
    ensures cause { IsErrOf result StepErr.DeviceFault → Rose (N.faults v.old.nor.now) (N.faults v.new.nor.now) }
    ensures looks { OnlyLooks v.old v.new }
    ensures missing { IfErr result (IsMissing id) }
    ensures within { IfOk result (λ n. (n ≤ length into.old) × (at + n < 2 ^ 32)) }
    ensures told { N.tells v.old.nor.now → (f : File) → IsFileOf v.old.geometry (N.bytes v.old.nor.now) id f →
        HoldsOrFault result (λ n. IsRead f at into.old into.new n) }
{
    match v.find_index(id, 0)? {
        Some(header) => read_from(v, id, header, at, into),
        None => Err(StepErr::Damaged(no_header(id))),
    }
}
