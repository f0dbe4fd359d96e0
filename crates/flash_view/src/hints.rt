//! Hints: the numbers of pages that were found to be header pages, noted in the bytes for work behind the page that was read, two bytes
//! each. Several ids or names have one place, and other code uses these bytes too, so any number may stand there: whoever takes a hint
//! looks at its page, and where that isn't the header page that is sought, at the others (`find_near`, `find_name_near`).
ghost use Rattle.std.specs.Prelude.{◌≡◌, ◌+◌, ◌*◌, ◌/◌, ◌<◌, ◌≤◌, take, OnErr, IfOk, IfSome, Some, true};
ghost use Rattle.geometry.specs.Numbers.{scratch_need, usable, page_count};
ghost use Rattle.nor_core.specs.Count.{Rose};
ghost use Rattle.image_model.specs.Live.{live_at, own};
ghost use Rattle.image_model.specs.Files.{index_page};
ghost use Rattle.image_model.specs.Tidy.{IsTidy};
ghost use Rattle.flash_view.specs.Found.{first_named, headed};
ghost use Rattle.flash_view.specs.Same.{OnlyLooks};

use crate::View;
use geometry::Geometry;
use nor_core::{Failed, Nor, NorState};
use page_layout::{put_word, read_word};

// How many hints there is room for.
fn hint_count(g: &Geometry) -> u32
    ensures { result ≡ g.now.page + usable g.now / 16 }
{
    g.page() + g.usable() / 16
}

// The byte of hint `i`.
fn hint_at(g: &Geometry, i: u32) -> usize
    requires { i < g.now.page + usable g.now / 16 }
    ensures low { 2 * g.now.page ≤ result }
    ensures high { result + 2 ≤ scratch_need g.now }
{
    2 * g.page() as usize + 2 * i as usize
}

// The byte of the hint for an id: one of the first hints, of which there are half as many as a page has bytes.
fn id_at(g: &Geometry, id: u16) -> usize
    ensures low { 2 * g.now.page ≤ result }
    ensures high { result + 2 ≤ scratch_need g.now }
{
    hint_at(g, u32::from(id) % (g.page() / 2))
}

// The byte of the hint for a name, by a hash of it: one of as many hints behind those of ids.
fn name_at(g: &Geometry, name: &[u8]) -> usize
    ensures low { 2 * g.now.page ≤ result }
    ensures high { result + 2 ≤ scratch_need g.now }
{
    let mut hash = 0u32;
    for &byte in name {
        hash = hash.wrapping_mul(31).wrapping_add(u32::from(byte));
    }
    let half = g.page() / 2;
    hint_at(g, half + hash % half)
}

// The byte of the hint for an id in a walk over all ids, which has all hints for itself.
fn walk_at(g: &Geometry, id: u16) -> usize
    ensures low { 2 * g.now.page ≤ result }
    ensures high { result + 2 ≤ scratch_need g.now }
{
    hint_at(g, u32::from(id) % hint_count(g))
}

impl<'b, N: Nor> View<'b, N> {
    /// The page that was noted as the header page of an id, or any other number. That of id 0, which no file has, is the header page
    /// that was found last.
    pub fn hint(&self, id: u16) -> u16 {
        read_word(self.work, id_at(&self.geometry, id))
    }

    /// The page that was noted as the header page with a name, or any other number.
    pub fn name_hint(&self, name: &[u8]) -> u16 {
        read_word(self.work, name_at(&self.geometry, name))
    }

    /// The same as `hint` in a walk over all ids. What was noted otherwise may be lost in it.
    pub fn walk_hint(&self, id: u16) -> u16 {
        read_word(self.work, walk_at(&self.geometry, id))
    }

    /// How many ids that follow one another have places of their own in a walk over all ids.
    pub fn walk_hints(&self) -> u32
        ensures { 0 < result }
    {
        hint_count(&self.geometry)
    }

    /// Notes a page as the header page of an id. The page that is being built and the one that was read stay.
    #[tactic(auto, using(crate::proofs::Looking::looks_none))]
    pub fn note_hint(&mut self, id: u16, page: u16)
        ensures looks { OnlyLooks self.old self.new }
        ensures kept { take (2 * self.old.geometry.page) self.new.work.now ≡ take (2 * self.old.geometry.page) self.old.work.now }
    {
        let at = id_at(&self.geometry, id);
        let work = &mut *self.work;
        put_word(work, at, page);
    }

    /// Notes a page as the header page with a name.
    #[tactic(auto, using(crate::proofs::Looking::looks_none))]
    pub fn note_name_hint(&mut self, name: &[u8], page: u16)
        ensures looks { OnlyLooks self.old self.new }
        ensures kept { take (2 * self.old.geometry.page) self.new.work.now ≡ take (2 * self.old.geometry.page) self.old.work.now }
    {
        let at = name_at(&self.geometry, name);
        let work = &mut *self.work;
        put_word(work, at, page);
    }

    /// The same as `note_hint` in a walk over all ids.
    #[tactic(auto, using(crate::proofs::Looking::looks_none))]
    pub fn note_walk_hint(&mut self, id: u16, page: u16)
        ensures looks { OnlyLooks self.old self.new }
        ensures kept { take (2 * self.old.geometry.page) self.new.work.now ≡ take (2 * self.old.geometry.page) self.old.work.now }
    {
        let at = walk_at(&self.geometry, id);
        let work = &mut *self.work;
        put_word(work, at, page);
    }

    // Whether a page is a live header page of an id. The number may be past the volume's end.
    #[tactic(auto, using(crate::proofs::Looking::looks_none))]
    fn is_header_of(&mut self, page: u16, id: u16) -> Result<bool, Failed>
        ensures cause { OnErr result (Rose (N.faults self.old.nor.now) (N.faults self.new.nor.now)) }
        ensures looks { OnlyLooks self.old self.new }
        ensures inside { IfOk result (λ is. is ≡ true → page < page_count self.old.geometry) }
        ensures told { N.tells self.old.nor.now → IfOk result (λ is. is ≡ true → Some id ≡ headed (live_at self.old.geometry (N.bytes self.old.nor.now) page)) }
        ensures work { self.new.work.now ≡ self.old.work.now }
    {
        if u32::from(page) >= self.geometry.pages() {
            return Ok(false);
        }
        Ok(match self.header_id(page)? {
            Some(found) => found == id,
            None => false,
        })
    }

    // From which page on to look for a header page of which no hint is right: from behind the header page that was found last.
    fn behind_last(&self) -> u16 {
        self.hint(0).saturating_add(1)
    }

    // From which page on to look for the header page with a name: from that of its hint, if this holds the name, else so.
    #[tactic(auto, using(crate::proofs::Looking::looks_none))]
    fn name_near(&mut self, name: &[u8]) -> Result<u16, Failed>
        ensures cause { OnErr result (Rose (N.faults self.old.nor.now) (N.faults self.new.nor.now)) }
        ensures looks { OnlyLooks self.old self.new }
        ensures built { take self.old.geometry.page self.new.work.now ≡ take self.old.geometry.page self.old.work.now }
    {
        let page = self.name_hint(name);
        if u32::from(page) >= self.geometry.pages() {
            return Ok(self.behind_last());
        }
        let has = self.has_name(page, name)?;
        Ok(if has { page } else { self.behind_last() })
    }

    /// The header page of an id, if the page of its hint is it: in a tidy image the one that `find_index` gives. No other page is looked at.
    #[tactic(auto, using(crate::proofs::Looking::looks_then))]
    pub fn hinted_header(&mut self, id: u16) -> Result<Option<u16>, Failed>
        ensures cause { OnErr result (Rose (N.faults self.old.nor.now) (N.faults self.new.nor.now)) }
        ensures looks { OnlyLooks self.old self.new }
        ensures inside { IfOk result (λ page. IfSome page (λ p. p < page_count self.old.geometry)) }
        ensures told { N.tells self.old.nor.now → IsTidy self.old.geometry (N.bytes self.old.nor.now) →
            IfOk result (λ page. IfSome page (λ p. Some p ≡ index_page self.old.geometry (own (live_at self.old.geometry (N.bytes self.old.nor.now)) id) 0)) }
        ensures kept { take (2 * self.old.geometry.page) self.new.work.now ≡ take (2 * self.old.geometry.page) self.old.work.now }
    {
        let hinted = self.hint(id);
        if !self.is_header_of(hinted, id)? {
            return Ok(None);
        }
        self.note_hint(0, hinted);
        Ok(Some(hinted))
    }

    /// The header page of an id, in a tidy image the one that `find_index` gives. The page of its hint comes first, else those behind the
    /// header page that was found last. What is found is noted.
    #[tactic(auto, using(crate::proofs::Looking::looks_then))]
    pub fn seek_header(&mut self, id: u16) -> Result<Option<u16>, Failed>
        ensures cause { OnErr result (Rose (N.faults self.old.nor.now) (N.faults self.new.nor.now)) }
        ensures looks { OnlyLooks self.old self.new }
        ensures inside { IfOk result (λ page. IfSome page (λ p. p < page_count self.old.geometry)) }
        ensures told { N.tells self.old.nor.now → IsTidy self.old.geometry (N.bytes self.old.nor.now) →
            IfOk result (λ page. page ≡ index_page self.old.geometry (own (live_at self.old.geometry (N.bytes self.old.nor.now)) id) 0) }
        ensures kept { take (2 * self.old.geometry.page) self.new.work.now ≡ take (2 * self.old.geometry.page) self.old.work.now }
    {
        if let Some(page) = self.hinted_header(id)? {
            return Ok(Some(page));
        }
        let near = self.behind_last();
        let Some(page) = self.find_near(id, 0, near)? else {
            return Ok(None);
        };
        self.note_hint(id, page);
        self.note_hint(0, page);
        Ok(Some(page))
    }

    // Notes the header page of an id that comes soon behind another one: of as many as have places of their own.
    #[tactic(auto, using(crate::proofs::Looking::looks_none))]
    pub(crate) fn note_behind(&mut self, after: u16, found: Option<u16>, page: u16)
        ensures looks { OnlyLooks self.old self.new }
        ensures kept { take (2 * self.old.geometry.page) self.new.work.now ≡ take (2 * self.old.geometry.page) self.old.work.now }
    {
        let Some(id) = found else {
            return;
        };
        if id > after && u32::from(id - after) < self.geometry.page() / 2 {
            self.note_hint(id, page);
        }
    }

    /// The id whose header page holds that name, in a tidy image the one that `find_header_name` gives. The page of the name's hint comes
    /// first, else those behind the header page that was found last. What is found is noted, for the name and for the id.
    #[tactic(auto, using(crate::proofs::Looking::looks_then))]
    pub fn seek_name(&mut self, name: &[u8]) -> Result<Option<u16>, Failed>
        ensures cause { OnErr result (Rose (N.faults self.old.nor.now) (N.faults self.new.nor.now)) }
        ensures looks { OnlyLooks self.old self.new }
        ensures told { N.tells self.old.nor.now → IsTidy self.old.geometry (N.bytes self.old.nor.now) →
            IfOk result (λ id. id ≡ first_named self.old.geometry (N.bytes self.old.nor.now) name.now) }
        ensures built { take self.old.geometry.page self.new.work.now ≡ take self.old.geometry.page self.old.work.now }
    {
        let near = self.name_near(name)?;
        let Some((id, page)) = self.find_name_near(name, near)? else {
            return Ok(None);
        };
        self.note_name_hint(name, page);
        self.note_hint(id, page);
        self.note_hint(0, page);
        Ok(Some(id))
    }
}
