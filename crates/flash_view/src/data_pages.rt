ghost use Rattle.std.specs.Prelude.{◌≡◌, ◌+◌, ◌<◌, ◌≤◌, ◌%◌, ◌^◌, ◌==◌, ◌&&◌, not, OnErr, IfOk, IsTrue, is_some};
ghost use Rattle.geometry.specs.Numbers.{page_count};
ghost use Rattle.nor_core.specs.Count.{Rose};
ghost use Rattle.page_layout.specs.Layout.{names_index};
ghost use Rattle.image_model.specs.Places.{page_of};
ghost use Rattle.nor_core.specs.Flash.{word_at};
ghost use Rattle.image_model.specs.Live.{live_at, own};
ghost use Rattle.image_model.specs.Files.{data_of};
ghost use Rattle.flash_view.specs.Same.{OnlyLooks};
ghost use Rattle.flash_view.specs.DataPages.{numbered, data_number, data_number_of};

use crate::View;
use crate::places::is_entry_page;
use nor_core::{Failed, Nor, NorState};
use page_layout::{PageHeader, entry_place, wide_index_span};

// Whether a header is that of a data page of an object and a span.
fn is_data(head: PageHeader, id: u16, span: u32) -> bool
    ensures { result ≡ ((head.id % 0x8000 == id) && (not (names_index head) && (head.span == span))) }
{
    head.object() == id && !head.is_index() && u32::from(head.span) == span
}

impl<'b, N: Nor> View<'b, N> {
    /// The data page of a span of an id, by the first live header page of the id: the page that its index entry names,
    /// where that is a live data page of the id and the span.
    #[tactic(auto, using(crate::proofs::Looking::looks_then))]
    pub fn find_data(&mut self, id: u16, span: u16) -> Result<Option<u16>, Failed>
        ensures cause { OnErr result (Rose (N.faults self.old.nor.now) (N.faults self.new.nor.now)) }
        ensures looks { OnlyLooks self.old self.new }
        ensures told { N.tells self.old.nor.now → IfOk result (λ page. page ≡ data_number_of self.old.geometry (N.bytes self.old.nor.now) id span) }
        ensures work { self.new.work.now ≡ self.old.work.now }
    {
        match self.find_index(id, 0)? {
            Some(header) => self.named_data(id, header, u32::from(span)),
            None => Ok(None),
        }
    }

    // The data page of a span, by a header page.
    #[tactic(auto, using(crate::proofs::Looking::looks_then))]
    fn named_data(&mut self, id: u16, header: u16, span: u32) -> Result<Option<u16>, Failed>
        requires header { header < page_count self.old.geometry }
        requires span { span < 2 ^ 16 }
        ensures cause { OnErr result (Rose (N.faults self.old.nor.now) (N.faults self.new.nor.now)) }
        ensures looks { OnlyLooks self.old self.new }
        ensures told { N.tells self.old.nor.now → IfOk result (λ page. page ≡ data_number self.old.geometry
            (own (live_at self.old.geometry (N.bytes self.old.nor.now)) id) (page_of self.old.geometry (N.bytes self.old.nor.now) header) span) }
        ensures work { self.new.work.now ≡ self.old.work.now }
    {
        let g = self.geometry;
        let at = entry_place(&g, span);
        if span < g.head_slots() {
            return self.data_in(header, at, id, span);
        }
        match self.find_span(id, wide_index_span(&g, span))? {
            Some(index) => self.data_in(index, at, id, span),
            None => Ok(None),
        }
    }

    /// The page whose number stands at byte `at` of an index page, where it is a live data page of an object and a span.
    #[tactic(auto, using(crate::proofs::Looking::looks_then))]
    pub fn data_in(
        &mut self,
        index: u16,
        at: u32,
        id: u16,
        span: u32,
    ) -> Result<Option<u16>, Failed>
        requires index { index < page_count self.old.geometry }
        requires at { at + 2 ≤ self.old.geometry.page }
        ensures cause { OnErr result (Rose (N.faults self.old.nor.now) (N.faults self.new.nor.now)) }
        ensures looks { OnlyLooks self.old self.new }
        ensures told { N.tells self.old.nor.now → IfOk result (λ page. page ≡ numbered (own (live_at self.old.geometry (N.bytes self.old.nor.now)) id) span
            (word_at (page_of self.old.geometry (N.bytes self.old.nor.now) index) at)) }
        ensures work { self.new.work.now ≡ self.old.work.now }
    {
        let page = self.word_in(index, at)?;
        Ok(if self.is_data_of(page, id, span)? {
            Some(page)
        } else {
            None
        })
    }

    /// Whether a page is a live data page of an object and a span. The number may be past the volume's end. The page's
    /// header is read only where its entry is that of the object's data pages.
    #[tactic(auto, using(crate::proofs::Looking::looks_then, crate::proofs::Spans::data_seen, crate::proofs::Spans::data_unseen, crate::proofs::Spans::data_beyond, crate::proofs::Spans::data_lookup, crate::proofs::Spans::data_passed))]
    pub fn is_data_of(&mut self, page: u16, id: u16, span: u32) -> Result<bool, Failed>
        ensures cause { OnErr result (Rose (N.faults self.old.nor.now) (N.faults self.new.nor.now)) }
        ensures looks { OnlyLooks self.old self.new }
        ensures inside { IfOk result (λ holds. IsTrue holds → page < page_count self.old.geometry) }
        ensures told { N.tells self.old.nor.now →
            IfOk result (λ holds. holds ≡ is_some (data_of (own (live_at self.old.geometry (N.bytes self.old.nor.now)) id page) span)) }
        ensures work { self.new.work.now ≡ self.old.work.now }
    {
        if u32::from(page) >= self.geometry.pages() {
            return Ok(false);
        }
        if !is_entry_page(&self.geometry, page) {
            return Ok(false);
        }
        let (entry, has) = self.entry_and_magic(page)?;
        if entry != id {
            return Ok(false);
        }
        Ok(match self.named_header(has, page, entry)? {
            Some(head) => is_data(head, id, span),
            None => false,
        })
    }
}
