ghost use Rattle.std.specs.Prelude.{◌≡◌, ◌+◌, ◌%◌, ◌==◌, ◌<◌, ◌≤◌, ℕ, List, true, length, slice_index, not, nat_lt, Some, None, OnOk, OnErr, IfOk, IfSome};
ghost use Rattle.std.specs.Prelude.{take, if◌then◌else◌};
ghost use Rattle.geometry.specs.Numbers.{page_count, check_need};
ghost use Rattle.nor_core.specs.Count.{Rose};
ghost use Rattle.image_model.specs.Places.{page_of};
ghost use Rattle.image_model.specs.Headers.{name_of as the_name_of};
ghost use Rattle.image_model.specs.Live.{live_at, own};
ghost use Rattle.image_model.specs.Files.{index_page};
ghost use Rattle.image_model.specs.Tidy.{is_number};
ghost use Rattle.flash_view.specs.Found.{headed as the_headed};
ghost use Rattle.flash_view.specs.Same.{OnlyLooks};
ghost use Rattle.file_find.specs.Ids.{is_noted as the_is_noted, name_number, NotesNames};
ghost use Rattle.file_find.specs.Marks.{NamesBelow, mark_of, name_mark as the_name_mark, whole_mark, head_mark, MarkedBelow, Surveyed, IsMarked};
ghost use Rattle.file_find.specs.Marks.{marked_id as the_marked_id, head_between, holder_at as the_holder_at, holder_below as the_holder_below, NextHead};
ghost use Rattle.file_find.specs.Marks.{NextMark, same_name as the_same_name, table_id, cause_at};

use crate::ids::{clear, is_noted, note_first, note_name};
use crate::judging::judge;
use crate::windows::likely_page;
use flash_view::View;
use image_model::Damage;
use memchr::memchr;
use nor_core::{Failed, Nor, NorState};
use page_layout::{FREE, INDEX_BIT, PageHeader};

/// The mark of the header page of a file that isn't whole.
pub(crate) const BROKEN: u8 = 1;

/// The mark of the header page of a whole file, where another file has its name.
pub(crate) const DOUBLED: u8 = 2;

// The least mark of the header page of a file that is in the table.
const LISTED: u8 = 3;

// Whether an id that was found is this one.
fn is_same(found: Option<u16>, id: u16) -> bool
    ensures { result ≡ is_number found id }
{
    match found {
        Some(first) => first == id,
        None => false,
    }
}

// The mark of the header page of a file of the table by its name: a later file of that name is compared with such pages
// alone.
fn name_mark(name: &[u8]) -> u8
    ensures { result ≡ the_name_mark name.now }
{
    let mut hash = 0u32;
    for &byte in name {
        hash = (31 * hash + u32::from(byte)) % 253;
    }
    LISTED + hash as u8
}

/// Whether the mark of a header page is that of a file in the table.
pub(crate) fn is_listed(mark: u8) -> bool
    ensures { result ≡ not (nat_lt mark 3) }
{
    mark >= LISTED
}

/// Marks each page, a byte for each page of the volume: 1 where it is the header page of an id whose file isn't whole,
/// 2 where it is that of an id whose file is whole and another file has the name, 3 and more by the name where the id
/// has a file in the table, and else 0. Notes the ids of header pages in the bytes behind.
#[tactic(auto, using(flash_view::proofs::Looking::looks_then))]
pub fn survey<N: Nor>(v: &mut View<'_, N>, marks: &mut [u8]) -> Result<(), Failed>
    requires { check_need v.old.geometry ≤ length marks.old }
    ensures cause { OnErr result (Rose (N.faults v.old.nor.now) (N.faults v.new.nor.now)) }
    ensures looks { OnlyLooks v.old v.new }
    ensures told { N.tells v.old.nor.now → OnOk result (IsMarked v.old.geometry (N.bytes v.old.nor.now) marks.new) }
    ensures built { take v.old.geometry.page v.new.work.now ≡ take v.old.geometry.page v.old.work.now }
{
    clear(marks, v.geometry.pages() as usize);
    let mut at = 0;
    'heads: while let Some((page, head)) = v.next_live(at, INDEX_BIT, FREE - 1)? {
        mark_page(v, marks, page, headed(head))?;
        at = u32::from(page) + 1;
    }
    Ok(())
}

// The id of an object by the header of an index page, if that is its header page.
fn headed(head: PageHeader) -> Option<u16>
    ensures { result ≡ (if head.span == 0 then Some (head.id % 0x8000) else None) }
{
    if head.span == 0 {
        Some(head.object())
    } else {
        None
    }
}

// Marks a page behind those that are marked, and notes the id whose header page it is.
#[tactic(auto, using(flash_view::proofs::Looking::looks_then))]
fn mark_page<N: Nor>(
    v: &mut View<'_, N>,
    marks: &mut [u8],
    page: u16,
    found: Option<u16>,
) -> Result<(), Failed>
    requires page { page < page_count v.old.geometry }
    requires room { check_need v.old.geometry ≤ length marks.old }
    ensures cause { OnErr result (Rose (N.faults v.old.nor.now) (N.faults v.new.nor.now)) }
    ensures looks { OnlyLooks v.old v.new }
    ensures behind { OnOk result ((p : ℕ) → page < p → p < page_count v.old.geometry → slice_index marks.new p ≡ slice_index marks.old p) }
    ensures told { N.tells v.old.nor.now → found ≡ the_headed (live_at v.old.geometry (N.bytes v.old.nor.now) page) →
        Surveyed v.old.geometry (N.bytes v.old.nor.now) marks.old page → NamesBelow v.old.geometry (N.bytes v.old.nor.now) marks.old page →
        OnOk result (Surveyed v.old.geometry (N.bytes v.old.nor.now) marks.new (page + 1)) }
    ensures names { N.tells v.old.nor.now → found ≡ the_headed (live_at v.old.geometry (N.bytes v.old.nor.now) page) →
        Surveyed v.old.geometry (N.bytes v.old.nor.now) marks.old page → NamesBelow v.old.geometry (N.bytes v.old.nor.now) marks.old page →
        OnOk result (NamesBelow v.old.geometry (N.bytes v.old.nor.now) marks.new (page + 1)) }
    ensures built { take v.old.geometry.page v.new.work.now ≡ take v.old.geometry.page v.old.work.now }
{
    let first = note_first(marks, v.geometry.pages() as usize, found);
    marks[page as usize] = mark(v, marks, first, page)?;
    Ok(())
}

// The mark of a page, which is the first header page of this id where there is one, behind pages that are marked. Notes the
// name of a whole file.
#[tactic(auto, using(flash_view::proofs::Looking::looks_then))]
fn mark<N: Nor>(
    v: &mut View<'_, N>,
    marks: &mut [u8],
    first: Option<u16>,
    page: u16,
) -> Result<u8, Failed>
    requires page { page < page_count v.old.geometry }
    requires room { check_need v.old.geometry ≤ length marks.old }
    ensures cause { OnErr result (Rose (N.faults v.old.nor.now) (N.faults v.new.nor.now)) }
    ensures looks { OnlyLooks v.old v.new }
    ensures told { N.tells v.old.nor.now → MarkedBelow v.old.geometry (N.bytes v.old.nor.now) marks.old page → NamesBelow v.old.geometry
        (N.bytes v.old.nor.now) marks.old page → IfOk result (λ mark. mark ≡ head_mark v.old.geometry (N.bytes v.old.nor.now) first page) }
    ensures names { NotesNames (page_count v.old.geometry) marks.old marks.new }
    ensures named { N.tells v.old.nor.now → IfOk result (λ mark. (name : List ℕ) → 3 ≤ mark → the_name_of (page_of v.old.geometry (N.bytes v.old.nor.now) page)
        ≡ Some name → the_is_noted marks.new (page_count v.old.geometry) (name_number name) ≡ true) }
    ensures built { take v.old.geometry.page v.new.work.now ≡ take v.old.geometry.page v.old.work.now }
{
    let Some(id) = first else {
        return Ok(0);
    };
    match judge(v, id, page)? {
        Some(_) => Ok(BROKEN),
        None => mark_whole(v, marks, page),
    }
}

// The mark of the header page of a whole file, behind pages that are marked. Notes its name: the pages are looked through only
// where a name of its number was noted before.
#[tactic(auto, using(flash_view::proofs::Looking::looks_then))]
fn mark_whole<N: Nor>(v: &mut View<'_, N>, marks: &mut [u8], page: u16) -> Result<u8, Failed>
    requires page { page < page_count v.old.geometry }
    requires room { check_need v.old.geometry ≤ length marks.old }
    ensures cause { OnErr result (Rose (N.faults v.old.nor.now) (N.faults v.new.nor.now)) }
    ensures looks { OnlyLooks v.old v.new }
    ensures told { N.tells v.old.nor.now → MarkedBelow v.old.geometry (N.bytes v.old.nor.now) marks.old page →
        NamesBelow v.old.geometry (N.bytes v.old.nor.now) marks.old page → IfOk result
        (λ mark. mark ≡ whole_mark v.old.geometry (N.bytes v.old.nor.now) page (the_name_of (page_of v.old.geometry (N.bytes v.old.nor.now) page))) }
    ensures names { NotesNames (page_count v.old.geometry) marks.old marks.new }
    ensures named { N.tells v.old.nor.now → IfOk result (λ mark. (name : List ℕ) → 3 ≤ mark → the_name_of (page_of v.old.geometry (N.bytes v.old.nor.now) page)
        ≡ Some name → the_is_noted marks.new (page_count v.old.geometry) (name_number name) ≡ true) }
    ensures built { take v.old.geometry.page v.new.work.now ≡ take v.old.geometry.page v.old.work.now }
{
    let Some(name) = v.name_at(page)? else {
        return Ok(BROKEN);
    };
    if note_name(marks, v.geometry.pages() as usize, name.as_slice()) {
        return Ok(name_mark(name.as_slice()));
    }
    match holder_below(v, marks, name.as_slice(), page)? {
        Some(_) => Ok(DOUBLED),
        None => Ok(name_mark(name.as_slice())),
    }
}

/// The least id above `after` that has a header page, with that page, by right marks.
#[tactic(auto, using(flash_view::proofs::Looking::looks_then))]
pub fn next_marked<N: Nor>(
    v: &mut View<'_, N>,
    marks: &[u8],
    after: u16,
) -> Result<Option<(u16, u16)>, Failed>
    requires room { check_need v.old.geometry ≤ length marks.now }
    requires marked { N.tells v.old.nor.now → IsMarked v.old.geometry (N.bytes v.old.nor.now) marks.now }
    ensures cause { OnErr result (Rose (N.faults v.old.nor.now) (N.faults v.new.nor.now)) }
    ensures looks { OnlyLooks v.old v.new }
    ensures inside { IfOk result (λ next. IfSome next (λ n. n.1 < page_count v.old.geometry)) }
    ensures above { IfOk result (λ next. IfSome next (λ n. after < n.0)) }
    ensures told { N.tells v.old.nor.now → IfOk result (λ next. NextHead v.old.geometry (N.bytes v.old.nor.now) after next) }
    ensures built { take v.old.geometry.page v.new.work.now ≡ take v.old.geometry.page v.old.work.now }
{
    for id in u32::from(after) + 1..u32::from(INDEX_BIT) {
        if let Some(page) = marked_page(v, marks, id as u16)? {
            return Ok(Some((id as u16, page)));
        }
    }
    Ok(None)
}

/// The header page of an id, by right marks: looked for where it is likely to be first. Pages without a mark aren't looked
/// at, nor is any page for an id that isn't noted.
#[tactic(auto, using(flash_view::proofs::Looking::looks_then))]
pub(crate) fn marked_page<N: Nor>(
    v: &mut View<'_, N>,
    marks: &[u8],
    id: u16,
) -> Result<Option<u16>, Failed>
    requires room { check_need v.old.geometry ≤ length marks.now }
    requires marked { N.tells v.old.nor.now → IsMarked v.old.geometry (N.bytes v.old.nor.now) marks.now }
    ensures cause { OnErr result (Rose (N.faults v.old.nor.now) (N.faults v.new.nor.now)) }
    ensures looks { OnlyLooks v.old v.new }
    ensures inside { IfOk result (λ page. IfSome page (λ p. p < page_count v.old.geometry)) }
    ensures told { N.tells v.old.nor.now → IfOk result (λ page. page ≡ index_page v.old.geometry (own (live_at v.old.geometry (N.bytes v.old.nor.now)) id) 0) }
    ensures built { take v.old.geometry.page v.new.work.now ≡ take v.old.geometry.page v.old.work.now }
{
    let pages = v.geometry.pages() as u16;
    if !is_noted(marks, usize::from(pages), id) {
        return Ok(None);
    }
    let near = likely_page(v, marks, id)?.min(pages);
    marked_near(v, marks, id, near)
}

// The same, looked for from page `near` on first.
#[tactic(auto, using(flash_view::proofs::Looking::looks_then))]
fn marked_near<N: Nor>(
    v: &mut View<'_, N>,
    marks: &[u8],
    id: u16,
    near: u16,
) -> Result<Option<u16>, Failed>
    requires near { near ≤ page_count v.old.geometry }
    requires room { page_count v.old.geometry ≤ length marks.now }
    requires marked { N.tells v.old.nor.now → IsMarked v.old.geometry (N.bytes v.old.nor.now) marks.now }
    ensures cause { OnErr result (Rose (N.faults v.old.nor.now) (N.faults v.new.nor.now)) }
    ensures looks { OnlyLooks v.old v.new }
    ensures inside { IfOk result (λ page. IfSome page (λ p. p < page_count v.old.geometry)) }
    ensures told { N.tells v.old.nor.now → IfOk result (λ page. page ≡ index_page v.old.geometry (own (live_at v.old.geometry (N.bytes v.old.nor.now)) id) 0) }
    ensures work { v.new.work.now ≡ v.old.work.now }
{
    let pages = v.geometry.pages() as u16;
    match marked_between(v, marks, id, near, pages)? {
        Some(page) => Ok(Some(page)),
        None => marked_between(v, marks, id, 0, near),
    }
}

// The header page of an id, where it is one of the pages from `from` on and below `to`, by right marks.
#[tactic(auto, using(flash_view::proofs::Looking::looks_then))]
fn marked_between<N: Nor>(
    v: &mut View<'_, N>,
    marks: &[u8],
    id: u16,
    from: u16,
    to: u16,
) -> Result<Option<u16>, Failed>
    requires inside { to ≤ page_count v.old.geometry }
    requires room { page_count v.old.geometry ≤ length marks.now }
    requires marked { N.tells v.old.nor.now → IsMarked v.old.geometry (N.bytes v.old.nor.now) marks.now }
    ensures cause { OnErr result (Rose (N.faults v.old.nor.now) (N.faults v.new.nor.now)) }
    ensures looks { OnlyLooks v.old v.new }
    ensures inside { IfOk result (λ page. IfSome page (λ p. p < page_count v.old.geometry)) }
    ensures told { N.tells v.old.nor.now → IfOk result (λ page. page ≡ head_between v.old.geometry (N.bytes v.old.nor.now) id from to) }
    ensures work { v.new.work.now ≡ v.old.work.now }
{
    for page in from..to {
        if is_same(marked_id(v, marks[page as usize], page)?, id) {
            return Ok(Some(page));
        }
    }
    Ok(None)
}

// The id whose header page a page with this mark is.
#[tactic(auto, using(crate::proofs::Heads::unmarked, crate::proofs::Heads::id_of_entry))]
fn marked_id<N: Nor>(v: &mut View<'_, N>, mark: u8, page: u16) -> Result<Option<u16>, Failed>
    requires page { page < page_count v.old.geometry }
    requires marked { N.tells v.old.nor.now → mark ≡ mark_of v.old.geometry (N.bytes v.old.nor.now) page }
    ensures cause { OnErr result (Rose (N.faults v.old.nor.now) (N.faults v.new.nor.now)) }
    ensures looks { OnlyLooks v.old v.new }
    ensures told { N.tells v.old.nor.now → IfOk result (λ id. id ≡ the_marked_id v.old.geometry (N.bytes v.old.nor.now) page) }
    ensures work { v.new.work.now ≡ v.old.work.now }
{
    if mark == 0 {
        return Ok(None);
    }
    Ok(Some(v.lookup_entry(page)? % INDEX_BIT))
}

/// The id of the table's file of that name, by right marks. Only pages that have the mark of the name are looked at.
pub fn find_name<N: Nor>(
    v: &mut View<'_, N>,
    marks: &[u8],
    name: &[u8],
) -> Result<Option<u16>, Failed>
    requires room { check_need v.old.geometry ≤ length marks.now }
    requires marked { N.tells v.old.nor.now → IsMarked v.old.geometry (N.bytes v.old.nor.now) marks.now }
    ensures cause { OnErr result (Rose (N.faults v.old.nor.now) (N.faults v.new.nor.now)) }
    ensures looks { OnlyLooks v.old v.new }
    ensures told { N.tells v.old.nor.now → IfOk result (λ id. id ≡ table_id v.old.geometry (N.bytes v.old.nor.now) name.now) }
    ensures built { take v.old.geometry.page v.new.work.now ≡ take v.old.geometry.page v.old.work.now }
{
    let pages = v.geometry.pages() as u16;
    holder_below(v, marks, name, pages)
}

// The id of the table's file of that name, where its header page is below `end`: the pages below are marked.
#[tactic(auto, using(flash_view::proofs::Looking::looks_then))]
fn holder_below<N: Nor>(
    v: &mut View<'_, N>,
    marks: &[u8],
    name: &[u8],
    end: u16,
) -> Result<Option<u16>, Failed>
    requires end { end ≤ page_count v.old.geometry }
    requires room { page_count v.old.geometry ≤ length marks.now }
    ensures cause { OnErr result (Rose (N.faults v.old.nor.now) (N.faults v.new.nor.now)) }
    ensures looks { OnlyLooks v.old v.new }
    ensures told { N.tells v.old.nor.now → MarkedBelow v.old.geometry (N.bytes v.old.nor.now) marks.now end →
        IfOk result (λ id. id ≡ the_holder_below v.old.geometry (N.bytes v.old.nor.now) name.now end) }
    ensures built { take v.old.geometry.page v.new.work.now ≡ take v.old.geometry.page v.old.work.now }
{
    let sought = name_mark(name);
    let mut at = 0;
    'pages: while let Some(page) = next_with(marks, sought, at, end) {
        if let Some(id) = holder_at(v, marks[page as usize], sought, page, name)? {
            return Ok(Some(id));
        }
        at = page + 1;
    }
    Ok(None)
}

/// The first page from `from` on and below `end` that has this mark, a byte for each page. Many marks are looked at at once.
pub fn next_with(marks: &[u8], sought: u8, from: u16, end: u16) -> Option<u16>
    requires ordered { from ≤ end }
    requires room { end ≤ length marks.now }
    ensures { NextMark marks.now sought from end result }
{
    match memchr(sought, &marks[from as usize..end as usize]) {
        Some(step) => Some(from + step as u16),
        None => None,
    }
}

// The id whose header page a page with this mark is, where its file is the table's of that name, whose mark is sought.
#[tactic(auto, using(flash_view::proofs::Looking::looks_then, crate::proofs::Holders::other_mark_name, crate::proofs::Holders::other_name, crate::proofs::Holders::holder_by_entry))]
fn holder_at<N: Nor>(
    v: &mut View<'_, N>,
    mark: u8,
    sought: u8,
    page: u16,
    name: &[u8],
) -> Result<Option<u16>, Failed>
    requires page { page < page_count v.old.geometry }
    requires sought { sought ≡ the_name_mark name.now }
    ensures cause { OnErr result (Rose (N.faults v.old.nor.now) (N.faults v.new.nor.now)) }
    ensures looks { OnlyLooks v.old v.new }
    ensures told { N.tells v.old.nor.now → mark ≡ mark_of v.old.geometry (N.bytes v.old.nor.now) page →
        IfOk result (λ id. id ≡ the_holder_at v.old.geometry (N.bytes v.old.nor.now) name.now page) }
    ensures built { take v.old.geometry.page v.new.work.now ≡ take v.old.geometry.page v.old.work.now }
{
    if mark != sought {
        return Ok(None);
    }
    if !v.has_name(page, name)? {
        return Ok(None);
    }
    Ok(Some(v.lookup_entry(page)? % INDEX_BIT))
}

/// Why an id with this header page has no file in the table, by right marks; none where it has one.
#[tactic(auto, using(flash_view::proofs::Looking::looks_then))]
pub fn damage<N: Nor>(
    v: &mut View<'_, N>,
    marks: &[u8],
    id: u16,
    header: u16,
) -> Result<Option<Damage>, Failed>
    requires room { check_need v.old.geometry ≤ length marks.now }
    requires header { header < page_count v.old.geometry }
    requires marked { N.tells v.old.nor.now → IsMarked v.old.geometry (N.bytes v.old.nor.now) marks.now }
    requires first { N.tells v.old.nor.now → index_page v.old.geometry (own (live_at v.old.geometry (N.bytes v.old.nor.now)) id) 0 ≡ Some header }
    ensures cause { OnErr result (Rose (N.faults v.old.nor.now) (N.faults v.new.nor.now)) }
    ensures looks { OnlyLooks v.old v.new }
    ensures told { N.tells v.old.nor.now → IfOk result (λ cause. cause ≡ cause_at v.old.geometry (N.bytes v.old.nor.now) id) }
    ensures built { take v.old.geometry.page v.new.work.now ≡ take v.old.geometry.page v.old.work.now }
{
    let mark = marks[header as usize];
    if mark == BROKEN {
        return judge(v, id, header);
    }
    if mark == DOUBLED {
        return same_name(v, marks, header);
    }
    Ok(None)
}

// The damage of a whole file whose name another file has.
#[tactic(auto, using(flash_view::proofs::Looking::looks_then))]
fn same_name<N: Nor>(
    v: &mut View<'_, N>,
    marks: &[u8],
    header: u16,
) -> Result<Option<Damage>, Failed>
    requires room { check_need v.old.geometry ≤ length marks.now }
    requires header { header < page_count v.old.geometry }
    requires marked { N.tells v.old.nor.now → IsMarked v.old.geometry (N.bytes v.old.nor.now) marks.now }
    ensures cause { OnErr result (Rose (N.faults v.old.nor.now) (N.faults v.new.nor.now)) }
    ensures looks { OnlyLooks v.old v.new }
    ensures told { N.tells v.old.nor.now → IfOk result
        (λ cause. cause ≡ the_same_name v.old.geometry (N.bytes v.old.nor.now) (the_name_of (page_of v.old.geometry (N.bytes v.old.nor.now) header))) }
    ensures built { take v.old.geometry.page v.new.work.now ≡ take v.old.geometry.page v.old.work.now }
{
    let Some(name) = v.name_at(header)? else {
        return Ok(Some(Damage::BadName));
    };
    let holder = find_name(v, marks, name.as_slice())?;
    Ok(Some(Damage::SameName(holder.unwrap_or(0))))
}
