//! How many files are whole by each number of meta bytes.
ghost use Rattle.std.specs.Prelude.{◌≡◌, ℕ, ◌+◌, ◌-◌, ◌<◌, ◌≤◌, ◌==◌, ◌&&◌, length, slice_index, None, IfSome, true, false};
ghost use Rattle.std.specs.List.{range_with_len, list_any};
ghost use Rattle.geometry.specs.declared.geometry.Geometry.{Geometry as AnyGeometry};
ghost use Rattle.geometry.specs.Numbers.{page_count, IsOf};
ghost use Rattle.image_model.specs.Places.{IsImage, page_of as the_page};
ghost use Rattle.image_model.specs.Headers.{name_of as the_name};
ghost use Rattle.plain_image.specs.Leading.{is_text};
ghost use Rattle.image_model.specs.Tables.{table_of, damaged_of};
ghost use Rattle.meta_tally.specs.Heads.{head_at, head_count};
ghost use Rattle.meta_tally.specs.Names.{name_mark as the_name_mark, mark_at, is_named_at, IsMarked, Noted};
ghost use Rattle.meta_tally.specs.Wholes.{is_complete_at as the_complete_at};
ghost use Rattle.meta_tally.specs.Counted.{IsAlike, shadows, is_counted, with_one, Tallied, AreTallied};

use crate::clearing::{clear_bytes, clear_counts};
use crate::heads::mark_heads;
use crate::names::{NUMBERS, name_mark, note_name};
use crate::wholes::is_complete;
use geometry::Geometry;
use page_layout::{INDEX_BIT, read_word};
use plain_image::{name_of, page_of};

/// Bytes that are lent for work.
pub const WORK: usize = 0x8000 + NUMBERS;

// How many numbers of meta bytes there are.
const METAS: u32 = 65;

// The same volume with another number of meta bytes.
fn with_meta(g: &Geometry, meta: u32) -> Geometry
    requires { meta ≤ 64 }
    ensures { IsOf result g.now.page g.now.block g.now.blocks g.now.phys meta g.now.magic }
{
    let mut other = *g;
    other.meta = meta;
    other
}

// Whether a page has that mark, and is a header page with that name.
#[tactic(auto, using(crate::proofs::Marks::named_is, crate::proofs::Marks::other_mark))]
fn is_named(g: &Geometry, image: &[u8], marks: &[u8], p: u32, mark: u8, name: &[u8]) -> bool
    requires image { IsImage g.now image.now }
    requires marked { IsMarked g.now image.now marks.now }
    requires page { p < page_count g.now }
    requires mark { mark ≡ the_name_mark name.now }
    ensures { result ≡ is_named_at g.now image.now name.now p }
{
    if marks[p as usize] != mark {
        return false;
    }
    match name_of(page_of(g, image, p)) {
        Some(other) => other == name,
        None => false,
    }
}

// The first header page with that name below `end`; `end` where there is none.
fn first_named(g: &Geometry, image: &[u8], marks: &[u8], end: u32, name: &[u8]) -> u32
    requires image { IsImage g.now image.now }
    requires marked { IsMarked g.now image.now marks.now }
    requires end { end ≤ page_count g.now }
    ensures none { (q : ℕ) → q < result → is_named_at g.now image.now name.now q ≡ false }
    ensures inside { result ≤ end }
{
    let mark = name_mark(name);
    for p in 0..end {
        if is_named(g, image, marks, p, mark, name) {
            return p;
        }
    }
    end
}

// Whether the file of a header page has all its data pages.
#[tactic(auto, unfolding(crate::specs::Wholes::is_complete_at))]
fn is_complete_at(g: &Geometry, image: &[u8], p: u32) -> bool
    requires image { IsImage g.now image.now }
    requires page { p < page_count g.now }
    ensures { result ≡ the_complete_at g.now image.now p }
{
    let head = page_of(g, image, p);
    is_complete(g, image, read_word(head, 0) % INDEX_BIT, head)
}

// Whether a page is the header page of a whole file with that name.
#[tactic(auto, unfolding(crate::specs::Counted::shadows))]
fn shadows_at(g: &Geometry, image: &[u8], marks: &[u8], p: u32, mark: u8, name: &[u8]) -> bool
    requires image { IsImage g.now image.now }
    requires marked { IsMarked g.now image.now marks.now }
    requires page { p < page_count g.now }
    requires mark { mark ≡ the_name_mark name.now }
    ensures { result ≡ shadows g.now image.now name.now p }
{
    if !is_named(g, image, marks, p, mark, name) {
        return false;
    }
    is_complete_at(g, image, p)
}

// Whether a whole file has that name whose header page is one of those from `from` on and below `end`.
fn is_shadowed(g: &Geometry, image: &[u8], marks: &[u8], from: u32, end: u32, name: &[u8]) -> bool
    requires image { IsImage g.now image.now }
    requires marked { IsMarked g.now image.now marks.now }
    requires end { end ≤ page_count g.now }
    requires from { from ≤ end }
    ensures { result ≡ list_any (shadows g.now image.now name.now) (range_with_len from (end - from)) }
{
    let mark = name_mark(name);
    for q in from..end {
        if shadows_at(g, image, marks, q, mark, name) {
            return true;
        }
    }
    false
}

// Whether the file of a header page counts, by some number of meta bytes. No page below `from` is a header page with its name.
fn counts(
    g: &Geometry,
    image: &[u8],
    marks: &[u8],
    from: u32,
    p: u32,
    name: &[u8],
    meta: u32,
) -> bool
    requires image { IsImage g.now image.now }
    requires marked { IsMarked g.now image.now marks.now }
    requires page { p < page_count g.now }
    requires from { from ≤ p }
    requires none { (q : ℕ) → q < from → is_named_at g.now image.now name.now q ≡ false }
    requires head { is_named_at g.now image.now name.now p ≡ true }
    requires meta { meta ≤ 64 }
    ensures { (h : AnyGeometry) → IsAlike g.now h → h.meta ≡ meta → result ≡ is_counted h image.now p }
{
    let h = with_meta(g, meta);
    if !is_complete_at(&h, image, p) {
        return false;
    }
    !is_shadowed(&h, image, marks, from, p, name)
}

// One more by that number of meta bytes, if the file counts.
fn add_one(whole: &mut [u32], meta: u32, counted: bool)
    requires meta { meta < length whole.old }
    requires few { slice_index whole.old meta < 65536 }
    ensures { whole.new ≡ with_one whole.old meta counted }
{
    if counted {
        whole[meta as usize] += 1;
    }
}

// Counts the file of a header page, by each number of meta bytes by which it counts.
fn count_file(
    g: &Geometry,
    image: &[u8],
    marks: &[u8],
    from: u32,
    p: u32,
    name: &[u8],
    whole: &mut [u32],
)
    requires image { IsImage g.now image.now }
    requires marked { IsMarked g.now image.now marks.now }
    requires page { p < page_count g.now }
    requires from { from ≤ p }
    requires none { (q : ℕ) → q < from → is_named_at g.now image.now name.now q ≡ false }
    requires head { is_named_at g.now image.now name.now p ≡ true }
    requires tallied { Tallied g.now image.now p whole.old }
    ensures { Tallied g.now image.now (p + 1) whole.new }
{
    for meta in 0..METAS {
        let counted = counts(g, image, marks, from, p, name, meta);
        add_one(whole, meta, counted);
    }
}

// From where on the pages are header pages of that name, if any are; the name is noted.
fn from_where(
    g: &Geometry,
    image: &[u8],
    names: &mut [u8],
    marks: &[u8],
    p: u32,
    name: &[u8],
) -> u32
    requires image { IsImage g.now image.now }
    requires marked { IsMarked g.now image.now marks.now }
    requires page { p < page_count g.now }
    requires noted { Noted g.now image.now p names.old }
    requires head { is_named_at g.now image.now name.now p ≡ true }
    ensures none { (q : ℕ) → q < result → is_named_at g.now image.now name.now q ≡ false }
    ensures inside { result ≤ p }
    ensures noted { Noted g.now image.now (p + 1) names.new }
{
    if note_name(names, name) {
        p
    } else {
        first_named(g, image, marks, p, name)
    }
}

// Counts the file of a header page with that name.
fn count_named(
    g: &Geometry,
    image: &[u8],
    names: &mut [u8],
    marks: &[u8],
    p: u32,
    name: &[u8],
    whole: &mut [u32],
)
    requires image { IsImage g.now image.now }
    requires marked { IsMarked g.now image.now marks.now }
    requires page { p < page_count g.now }
    requires head { is_named_at g.now image.now name.now p ≡ true }
    requires noted { Noted g.now image.now p names.old }
    requires tallied { Tallied g.now image.now p whole.old }
    ensures noted { Noted g.now image.now (p + 1) names.new }
    ensures tallied { Tallied g.now image.now (p + 1) whole.new }
{
    let from = from_where(g, image, names, marks, p, name);
    count_file(g, image, marks, from, p, name, whole);
}

// The name of a header page, if the page is marked.
#[tactic(auto, using(crate::proofs::Tallies::unmarked_none, crate::proofs::Tallies::marked_named))]
fn marked_name<'a>(g: &Geometry, image: &'a [u8], marks: &[u8], p: u32) -> Option<&'a [u8]>
    requires image { IsImage g.now image.now }
    requires marked { IsMarked g.now image.now marks.now }
    requires page { p < page_count g.now }
    ensures some { IfSome result (λ name. is_named_at g.now image.now name.now p ≡ true) }
    ensures none { result ≡ None → mark_at g.now image.now p ≡ 0 }
{
    if marks[p as usize] == 0 {
        return None;
    }
    name_of(page_of(g, image, p))
}

// Counts the file of a page, if that is marked.
fn count_page(g: &Geometry, image: &[u8], names: &mut [u8], marks: &[u8], p: u32, whole: &mut [u32])
    requires image { IsImage g.now image.now }
    requires marked { IsMarked g.now image.now marks.now }
    requires page { p < page_count g.now }
    requires noted { Noted g.now image.now p names.old }
    requires tallied { Tallied g.now image.now p whole.old }
    ensures noted { Noted g.now image.now (p + 1) names.new }
    ensures tallied { Tallied g.now image.now (p + 1) whole.new }
{
    match marked_name(g, image, marks, p) {
        None => {}
        Some(name) => count_named(g, image, names, marks, p, name, whole),
    }
}

// The same for all pages, which are marked.
fn count_pages(g: &Geometry, image: &[u8], names: &mut [u8], marks: &[u8], whole: &mut [u32])
    requires image { IsImage g.now image.now }
    requires marked { IsMarked g.now image.now marks.now }
    requires names { length names.old ≡ 0x80000 }
    requires whole { length whole.old ≡ 65 }
    ensures { AreTallied g.now image.now whole.new }
{
    clear_bytes(names);
    clear_counts(whole);
    for p in 0..g.pages() {
        count_page(g, image, names, marks, p, whole);
    }
}

// Marks all pages, over the front of the bytes for work.
fn mark_first(g: &Geometry, image: &[u8], work: &mut [u8], marks: &mut [u8]) -> u32
    requires image { IsImage g.now image.now }
    requires work { 557056 ≤ length work.old }
    requires marks { page_count g.now ≤ length marks.old }
    ensures count { result ≡ head_count g.now image.now }
    ensures marked { IsMarked g.now image.now marks.new }
{
    mark_heads(g, image, &mut work[..0x8000], marks)
}

// Counts the files of all pages, over the rest of these bytes.
fn count_behind(g: &Geometry, image: &[u8], work: &mut [u8], marks: &[u8], whole: &mut [u32])
    requires image { IsImage g.now image.now }
    requires work { 557056 ≤ length work.old }
    requires marked { IsMarked g.now image.now marks.now }
    requires whole { length whole.old ≡ 65 }
    ensures { AreTallied g.now image.now whole.new }
{
    count_pages(g, image, &mut work[0x8000..WORK], marks, whole);
}

/// How many files of an image are whole by each number of meta bytes from 0 to 64. Answers how many ids have a header page: those
/// whose file isn't among the whole ones are damaged. Of lent bytes it takes 557,056 for work and a byte for each page; what they
/// hold doesn't matter.
pub fn tally_files(
    g: &Geometry,
    image: &[u8],
    work: &mut [u8],
    marks: &mut [u8],
    whole: &mut [u32],
) -> u32
    requires image { IsImage g.now image.now }
    requires work { 557056 ≤ length work.old }
    requires marks { page_count g.now ≤ length marks.old }
    requires whole { length whole.old ≡ 65 }
    ensures heads { (h : AnyGeometry) → IsAlike g.now h → result ≡ length (table_of h image.now) + length (damaged_of h image.now) }
    ensures whole { AreTallied g.now image.now whole.new }
{
    let heads = mark_first(g, image, work, marks);
    count_behind(g, image, work, marks, whole);
    heads
}
