ghost use Rattle.std.specs.Prelude.{◌*◌, ◌≡◌, ◌<◌, ◌≤◌, length, ◌%◌, ◌==◌, ◌&&◌, not, nat_lt, OnErr, IfOk, IfSome, Some, None, if◌then◌else◌, take};
ghost use Rattle.std.specs.Option.{option_map};
ghost use Rattle.geometry.specs.Numbers.{page_count};
ghost use Rattle.nor_core.specs.Count.{Rose};
ghost use Rattle.page_layout.specs.Layout.{header_at, names_index};
ghost use Rattle.image_model.specs.Places.{page_of};
ghost use Rattle.image_model.specs.Headers.{obj_id, name_of as the_name_of};
ghost use Rattle.image_model.specs.Live.{live_at, own, is_live as the_live};
ghost use Rattle.image_model.specs.Files.{is_index, index_page};
ghost use Rattle.image_model.specs.Tidy.{IsTidy};
ghost use Rattle.flash_view.specs.Places.{IsEntryPage};
ghost use Rattle.flash_view.specs.Same.{OnlyLooks};
ghost use Rattle.flash_view.specs.DataPages.{lookup_entry as the_lookup_entry};
ghost use Rattle.flash_view.specs.Found.{NextId, index_between, index_near, headed, lower as the_lower, is_name, named_at, first_named};
ghost use Rattle.flash_view.specs.Found.{named_between as the_named_between, named_near};

use crate::View;
use crate::places::{block_of, is_entry_page};
use nor_core::{Failed, Nor, NorState};
use page_layout::{FREE, INDEX_BIT, PageHeader, name_of};
use table_model::Name;

// The lesser of two ids, of which the second counts only where it is above `after`.
fn lower(after: u16, least: Option<u16>, found: Option<u16>) -> Option<u16>
    ensures { result ≡ the_lower after least found }
{
    match (least, found) {
        (_, None) => least,
        (None, Some(id)) => if id > after { Some(id) } else { None },
        (Some(old), Some(id)) => if id > after && id < old {
            Some(id)
        } else {
            Some(old)
        },
    }
}

// The id of an object by the header of its header page.
fn headed_id(head: PageHeader) -> Option<u16>
    ensures { result ≡ (if names_index head && (head.span == 0) then Some (head.id % 0x8000) else None) }
{
    if head.is_index() && head.span == 0 {
        Some(head.object())
    } else {
        None
    }
}

// Whether a lookup entry is that of index pages of any object.
fn is_index_entry(entry: u16) -> bool
    ensures { result ≡ (not (nat_lt entry 0x8000) && not (entry == 0xFFFF)) }
{
    entry >= INDEX_BIT && entry != FREE
}

// Where the name begins in a header page, in bytes.
const NAME_AT: usize = 13;

/// Whether the bytes of a page hold that name, in the field of header pages. (Most pages hold other bytes there.)
#[tactic(auto, using(crate::proofs::Names::other_start, crate::proofs::Names::too_long))]
pub fn is_named(page: &[u8], name: &[u8]) -> bool
    requires { 45 ≤ length page.now }
    ensures { result ≡ is_name (the_name_of page.now) name.now }
{
    if name.len() > 31 || &page[NAME_AT..NAME_AT + name.len()] != name {
        return false;
    }
    match name_of(page) {
        Some(found) => found.as_slice() == name,
        None => false,
    }
}

impl<'b, N: Nor> View<'b, N> {
    /// The header of a page, if the page is live: in a block with its magic, finished, not deleted, and
    /// named by its entry.
    #[tactic(auto, unfolding(image_model::specs::Live::live_at, image_model::specs::Live::is_live, image_model::specs::Places::is_entry_page, geometry::specs::Numbers::page_count, geometry::specs::Numbers::per_block, geometry::specs::Numbers::lookups), using(crate::proofs::Looking::looks_then))]
    pub fn live_header(&mut self, page: u16) -> Result<Option<PageHeader>, Failed>
        requires { page < page_count self.old.geometry }
        ensures cause { OnErr result (Rose (N.faults self.old.nor.now) (N.faults self.new.nor.now)) }
        ensures looks { OnlyLooks self.old self.new }
        ensures told { N.tells self.old.nor.now →
            IfOk result (λ head. head ≡ option_map header_at (live_at self.old.geometry (N.bytes self.old.nor.now) page)) }
        ensures work { self.new.work.now ≡ self.old.work.now }
    {
        let g = self.geometry;
        if !is_entry_page(&g, page) {
            return Ok(None);
        }
        let entry = self.entry(page)?;
        self.live_by(block_of(&g, page), page, entry)
    }

    /// Whether a page is live.
    #[tactic(auto, using(crate::proofs::Heads::live_seen))]
    pub fn is_live(&mut self, page: u16) -> Result<bool, Failed>
        requires { IsEntryPage self.old.geometry page }
        ensures cause { OnErr result (Rose (N.faults self.old.nor.now) (N.faults self.new.nor.now)) }
        ensures looks { OnlyLooks self.old self.new }
        ensures told { N.tells self.old.nor.now → IfOk result (λ live. live ≡ the_live self.old.geometry (N.bytes self.old.nor.now) page) }
        ensures work { self.new.work.now ≡ self.old.work.now }
    {
        Ok(self.live_header(page)?.is_some())
    }

    /// The lookup entry of a page, and 0 where the page is a lookup page itself.
    #[tactic(auto, unfolding(crate::specs::DataPages::lookup_entry))]
    pub fn lookup_entry(&mut self, page: u16) -> Result<u16, Failed>
        requires { page < page_count self.old.geometry }
        ensures cause { OnErr result (Rose (N.faults self.old.nor.now) (N.faults self.new.nor.now)) }
        ensures looks { OnlyLooks self.old self.new }
        ensures told { N.tells self.old.nor.now → IfOk result (λ entry. entry ≡ the_lookup_entry self.old.geometry (N.bytes self.old.nor.now) page) }
        ensures work { self.new.work.now ≡ self.old.work.now }
    {
        let g = self.geometry;
        if is_entry_page(&g, page) {
            self.entry(page)
        } else {
            Ok(0)
        }
    }

    // The header of a page, if the page is live, by its lookup entry as `lookup_entry` gives it.
    #[tactic(auto, unfolding(crate::specs::DataPages::lookup_entry, image_model::specs::Live::live_at, image_model::specs::Live::is_live, image_model::specs::Places::is_entry_page, geometry::specs::Numbers::page_count, geometry::specs::Numbers::per_block, geometry::specs::Numbers::lookups), using(crate::proofs::Looking::looks_then, crate::proofs::Looking::looks_none))]
    pub(crate) fn live_behind(
        &mut self,
        page: u16,
        entry: u16,
    ) -> Result<Option<PageHeader>, Failed>
        requires { page < page_count self.old.geometry }
        ensures cause { OnErr result (Rose (N.faults self.old.nor.now) (N.faults self.new.nor.now)) }
        ensures looks { OnlyLooks self.old self.new }
        ensures told { N.tells self.old.nor.now → entry ≡ the_lookup_entry self.old.geometry (N.bytes self.old.nor.now) page →
            IfOk result (λ head. head ≡ option_map header_at (live_at self.old.geometry (N.bytes self.old.nor.now) page)) }
        ensures work { self.new.work.now ≡ self.old.work.now }
    {
        let g = self.geometry;
        if !is_entry_page(&g, page) {
            return Ok(None);
        }
        self.live_by(block_of(&g, page), page, entry)
    }

    /// The index page of an object and a span: the first live one in page order. Span 0 is the header page.
    #[tactic(auto, using(crate::proofs::Looking::looks_then))]
    pub fn find_index(&mut self, id: u16, span: u16) -> Result<Option<u16>, Failed>
        ensures cause { OnErr result (Rose (N.faults self.old.nor.now) (N.faults self.new.nor.now)) }
        ensures looks { OnlyLooks self.old self.new }
        ensures inside { IfOk result (λ page. IfSome page (λ p. p < page_count self.old.geometry)) }
        ensures told { N.tells self.old.nor.now →
            IfOk result (λ page. page ≡ index_page self.old.geometry (own (live_at self.old.geometry (N.bytes self.old.nor.now)) id) span) }
        ensures work { self.new.work.now ≡ self.old.work.now }
    {
        self.find_span(id, u32::from(span))
    }

    /// The index page of an object and a span as `find_index` gives it, for any span: those above 65,535 have no page.
    #[tactic(auto, using(crate::proofs::Looking::looks_then))]
    pub fn find_span(&mut self, id: u16, span: u32) -> Result<Option<u16>, Failed>
        ensures cause { OnErr result (Rose (N.faults self.old.nor.now) (N.faults self.new.nor.now)) }
        ensures looks { OnlyLooks self.old self.new }
        ensures inside { IfOk result (λ page. IfSome page (λ p. p < page_count self.old.geometry)) }
        ensures told { N.tells self.old.nor.now →
            IfOk result (λ page. page ≡ index_page self.old.geometry (own (live_at self.old.geometry (N.bytes self.old.nor.now)) id) span) }
        ensures work { self.new.work.now ≡ self.old.work.now }
    {
        let pages = self.geometry.pages();
        self.span_between(id, span, 0, pages)
    }

    /// The index page of an object and a span, looked for from page `near` on first, and then below it. Where the object has
    /// one such page, as in a tidy image, it is the one that `find_span` gives, whatever `near` is.
    #[tactic(auto, using(crate::proofs::Looking::looks_then))]
    pub fn find_near(&mut self, id: u16, span: u32, near: u16) -> Result<Option<u16>, Failed>
        ensures cause { OnErr result (Rose (N.faults self.old.nor.now) (N.faults self.new.nor.now)) }
        ensures looks { OnlyLooks self.old self.new }
        ensures inside { IfOk result (λ page. IfSome page (λ p. p < page_count self.old.geometry)) }
        ensures any { N.tells self.old.nor.now →
            IfOk result (λ page. page ≡ index_near self.old.geometry (own (live_at self.old.geometry (N.bytes self.old.nor.now)) id) span near) }
        ensures told { N.tells self.old.nor.now → IsTidy self.old.geometry (N.bytes self.old.nor.now) →
            IfOk result (λ page. page ≡ index_page self.old.geometry (own (live_at self.old.geometry (N.bytes self.old.nor.now)) id) span) }
        ensures work { self.new.work.now ≡ self.old.work.now }
    {
        let pages = self.geometry.pages();
        let from = u32::from(near).min(pages);
        match self.span_between(id, span, from, pages)? {
            Some(page) => Ok(Some(page)),
            None => self.span_between(id, span, 0, from),
        }
    }

    // The first index page of an object and a span from page `from` on and below page `to`.
    #[tactic(auto, using(crate::proofs::Looking::looks_then))]
    fn span_between(
        &mut self,
        id: u16,
        span: u32,
        from: u32,
        to: u32,
    ) -> Result<Option<u16>, Failed>
        requires { from ≤ to }
        ensures cause { OnErr result (Rose (N.faults self.old.nor.now) (N.faults self.new.nor.now)) }
        ensures looks { OnlyLooks self.old self.new }
        ensures inside { IfOk result (λ page. IfSome page (λ p. p < page_count self.old.geometry)) }
        ensures told { N.tells self.old.nor.now → to ≤ page_count self.old.geometry →
            IfOk result (λ page. page ≡ index_between (own (live_at self.old.geometry (N.bytes self.old.nor.now)) id) span from to) }
        ensures work { self.new.work.now ≡ self.old.work.now }
    {
        if id >= INDEX_BIT {
            return Ok(None);
        }
        let entry = INDEX_BIT + id;
        let mut at = from;
        'pages: while let Some((page, head)) = self.next_live(at, entry, entry)? {
            if u32::from(page) >= to {
                return Ok(None);
            }
            if u32::from(head.span) == span {
                return Ok(Some(page));
            }
            at = u32::from(page) + 1;
        }
        Ok(None)
    }

    /// The least id above `after` that has a header page. It looks at every index page, and the header pages of ids soon behind that one are
    /// noted, so that the next ids are found by their hints.
    #[tactic(auto, using(crate::proofs::Looking::looks_then))]
    pub fn next_id(&mut self, after: u16) -> Result<Option<u16>, Failed>
        ensures cause { OnErr result (Rose (N.faults self.old.nor.now) (N.faults self.new.nor.now)) }
        ensures looks { OnlyLooks self.old self.new }
        ensures told { N.tells self.old.nor.now → IfOk result (λ id. NextId self.old.geometry (N.bytes self.old.nor.now) after id) }
        ensures kept { take (2 * self.old.geometry.page) self.new.work.now ≡ take (2 * self.old.geometry.page) self.old.work.now }
    {
        let mut least = None;
        let mut at = 0;
        'pages: while let Some((page, head)) = self.next_live(at, INDEX_BIT, FREE - 1)? {
            let found = headed_id(head);
            least = lower(after, least, found);
            self.note_behind(after, found, page);
            at = u32::from(page) + 1;
        }
        Ok(least)
    }

    /// The id whose header page holds that name: the first live one in page order, whether its file is whole or damaged.
    #[tactic(auto, using(crate::proofs::Looking::looks_then))]
    pub fn find_header_name(&mut self, name: &[u8]) -> Result<Option<u16>, Failed>
        ensures cause { OnErr result (Rose (N.faults self.old.nor.now) (N.faults self.new.nor.now)) }
        ensures looks { OnlyLooks self.old self.new }
        ensures told { N.tells self.old.nor.now → IfOk result (λ id. id ≡ first_named self.old.geometry (N.bytes self.old.nor.now) name.now) }
        ensures built { take self.old.geometry.page self.new.work.now ≡ take self.old.geometry.page self.old.work.now }
    {
        let pages = self.geometry.pages();
        Ok(match self.named_between(name, 0, pages)? {
            Some((id, _)) => Some(id),
            None => None,
        })
    }

    /// The id whose header page holds that name, and that page, looked for from page `near` on first, and then below it. Where
    /// one header page has the name, as in a tidy image, the id is the one that `find_header_name` gives, whatever `near` is.
    #[tactic(auto, using(crate::proofs::Looking::looks_then))]
    pub fn find_name_near(&mut self, name: &[u8], near: u16) -> Result<Option<(u16, u16)>, Failed>
        ensures cause { OnErr result (Rose (N.faults self.old.nor.now) (N.faults self.new.nor.now)) }
        ensures looks { OnlyLooks self.old self.new }
        ensures inside { IfOk result (λ found. IfSome found (λ f. f.1 < page_count self.old.geometry)) }
        ensures any { N.tells self.old.nor.now → IfOk result (λ found. found ≡ named_near self.old.geometry (N.bytes self.old.nor.now) name.now near) }
        ensures told { N.tells self.old.nor.now → IsTidy self.old.geometry (N.bytes self.old.nor.now) →
            IfOk result (λ found. option_map (λ f. f.0) found ≡ first_named self.old.geometry (N.bytes self.old.nor.now) name.now) }
        ensures built { take self.old.geometry.page self.new.work.now ≡ take self.old.geometry.page self.old.work.now }
    {
        let pages = self.geometry.pages();
        let from = u32::from(near).min(pages);
        match self.named_between(name, from, pages)? {
            Some(found) => Ok(Some(found)),
            None => self.named_between(name, 0, from),
        }
    }

    // Whether a page with this header is the first of its object and holds that name.
    #[inline(always)]
    #[tactic(auto, using(crate::proofs::Looking::looks_none))]
    fn is_named_head(&mut self, page: u16, head: PageHeader, name: &[u8]) -> Result<bool, Failed>
        requires { page < page_count self.old.geometry }
        ensures cause { OnErr result (Rose (N.faults self.old.nor.now) (N.faults self.new.nor.now)) }
        ensures looks { OnlyLooks self.old self.new }
        ensures told { N.tells self.old.nor.now →
            IfOk result (λ has. has ≡ ((head.span == 0) && is_name (the_name_of (page_of self.old.geometry (N.bytes self.old.nor.now) page)) name.now)) }
        ensures work { self.new.work.now ≡ self.old.work.now }
    {
        if head.span != 0 {
            return Ok(false);
        }
        self.has_name(page, name)
    }

    // The id whose header page holds that name, and that page: the first from page `from` on and below page `to`.
    #[tactic(auto, using(crate::proofs::Looking::looks_then))]
    fn named_between(
        &mut self,
        name: &[u8],
        from: u32,
        to: u32,
    ) -> Result<Option<(u16, u16)>, Failed>
        requires { from ≤ to }
        ensures cause { OnErr result (Rose (N.faults self.old.nor.now) (N.faults self.new.nor.now)) }
        ensures looks { OnlyLooks self.old self.new }
        ensures inside { IfOk result (λ found. IfSome found (λ f. f.1 < page_count self.old.geometry)) }
        ensures told { N.tells self.old.nor.now → to ≤ page_count self.old.geometry →
            IfOk result (λ found. found ≡ the_named_between self.old.geometry (N.bytes self.old.nor.now) name.now from to) }
        ensures built { take self.old.geometry.page self.new.work.now ≡ take self.old.geometry.page self.old.work.now }
    {
        let mut at = from;
        'pages: while let Some((page, head)) = self.next_live(at, INDEX_BIT, FREE - 1)? {
            if u32::from(page) >= to {
                return Ok(None);
            }
            let has = self.is_named_head(page, head, name)?;
            if has {
                return Ok(Some((head.object(), page)));
            }
            at = u32::from(page) + 1;
        }
        Ok(None)
    }

    /// The id of the object whose header page a page is, if it is a live one.
    #[tactic(auto, using(crate::proofs::Looking::looks_then, crate::proofs::Names::headed_by, crate::proofs::Names::unheaded_by, crate::proofs::Entries::passed_head))]
    pub fn header_id(&mut self, page: u16) -> Result<Option<u16>, Failed>
        requires { page < page_count self.old.geometry }
        ensures cause { OnErr result (Rose (N.faults self.old.nor.now) (N.faults self.new.nor.now)) }
        ensures looks { OnlyLooks self.old self.new }
        ensures told { N.tells self.old.nor.now → IfOk result (λ id. id ≡ headed (live_at self.old.geometry (N.bytes self.old.nor.now) page)) }
        ensures work { self.new.work.now ≡ self.old.work.now }
    {
        let entry = self.lookup_entry(page)?;
        if !is_index_entry(entry) {
            return Ok(None);
        }
        Ok(match self.live_behind(page, entry)? {
            Some(head) => headed_id(head),
            None => None,
        })
    }

    // The name that a page tells in the field of header pages, where it tells one. The bytes up to that field's end alone are read.
    #[inline(never)]
    fn peek_name(&mut self, page: u16) -> Result<Option<Name>, Failed>
        requires { page < page_count self.old.geometry }
        ensures cause { OnErr result (Rose (N.faults self.old.nor.now) (N.faults self.new.nor.now)) }
        ensures looks { OnlyLooks self.old self.new }
        ensures told { N.tells self.old.nor.now → IfOk result (λ name. name ≡ the_name_of (page_of self.old.geometry (N.bytes self.old.nor.now) page)) }
        ensures work { self.new.work.now ≡ self.old.work.now }
    {
        let mut head = [0u8; 45];
        self.read_in(page, 0, &mut head)?;
        Ok(name_of(&head))
    }

    /// The name that a page tells in the field of header pages, where it tells one.
    pub fn name_at(&mut self, page: u16) -> Result<Option<Name>, Failed>
        requires { page < page_count self.old.geometry }
        ensures cause { OnErr result (Rose (N.faults self.old.nor.now) (N.faults self.new.nor.now)) }
        ensures looks { OnlyLooks self.old self.new }
        ensures told { N.tells self.old.nor.now → IfOk result (λ name. name ≡ the_name_of (page_of self.old.geometry (N.bytes self.old.nor.now) page)) }
        ensures built { take self.old.geometry.page self.new.work.now ≡ take self.old.geometry.page self.old.work.now }
    {
        if self.has_few() {
            return self.peek_name(page);
        }
        let f = self.bring(page)?;
        Ok(name_of(self.brought(f, page)))
    }

    // Whether a page holds that name, in the field of header pages. The bytes up to that field's end alone are read.
    #[inline(never)]
    fn peeks_name(&mut self, page: u16, name: &[u8]) -> Result<bool, Failed>
        requires { page < page_count self.old.geometry }
        ensures cause { OnErr result (Rose (N.faults self.old.nor.now) (N.faults self.new.nor.now)) }
        ensures looks { OnlyLooks self.old self.new }
        ensures told { N.tells self.old.nor.now →
            IfOk result (λ has. has ≡ is_name (the_name_of (page_of self.old.geometry (N.bytes self.old.nor.now) page)) name.now) }
        ensures work { self.new.work.now ≡ self.old.work.now }
    {
        let mut head = [0u8; 45];
        self.read_in(page, 0, &mut head)?;
        Ok(is_named(&head, name))
    }

    /// Whether a page holds that name, in the field of header pages.
    #[inline(always)]
    pub fn has_name(&mut self, page: u16, name: &[u8]) -> Result<bool, Failed>
        requires { page < page_count self.old.geometry }
        ensures cause { OnErr result (Rose (N.faults self.old.nor.now) (N.faults self.new.nor.now)) }
        ensures looks { OnlyLooks self.old self.new }
        ensures told { N.tells self.old.nor.now →
            IfOk result (λ has. has ≡ is_name (the_name_of (page_of self.old.geometry (N.bytes self.old.nor.now) page)) name.now) }
        ensures work { self.new.work.now ≡ self.old.work.now }
        ensures built { take self.old.geometry.page self.new.work.now ≡ take self.old.geometry.page self.old.work.now }
    {
        if self.has_few() {
            return self.peeks_name(page, name);
        }
        let f = self.bring(page)?;
        Ok(is_named(self.brought(f, page), name))
    }
}
