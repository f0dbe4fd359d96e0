//! All frames of the lent bytes.
//!
//! A page is looked for in its home, the frame of its own number modulo the number of frames, and in the frames from one that
//! the home tells on, before another one. There stand the pages with this home that came while it was in use and others were
//! free. So neither a page that is held nor one that isn't costs a walk over all frames, and nor does a program. Where no frame
//! is free this is known without a walk too, by a number in the first frame.
ghost use Rattle.std.specs.Prelude.{◌≡◌, ℕ, ◌+◌, ◌*◌, ◌%◌, ◌<◌, ◌≤◌, ◌≢◌, ◌⊎◌, ◌^◌, length, true, false, IfSome, None};
ghost use Rattle.geometry.specs.Numbers.{page_count, cache_need};
ghost use Rattle.page_cache.specs.Frames.{frame_size, frame_count as the_frame_count, frame_at, number_of as the_number_of, page_in, holds, home_of, AllInUse};
ghost use Rattle.page_cache.specs.Frames.{IsFindable, IsNear, Widened, Bounded, AreSameCopies, span_of, Follows, IsReady, IsFree, EachFrame, EachPage, OnePage};

use crate::frame::{Event, HEAD, bound, empty, follow, number_of, span, strays, used, widen};
use geometry::Geometry;

// Bytes of a frame.
pub(crate) fn frame_len(g: &Geometry) -> usize
    ensures { result ≡ frame_size g.now }
{
    g.page() as usize + HEAD
}

// How many frames the bytes hold.
#[tactic(auto, unfolding(crate::specs::Frames::frame_count))]
pub(crate) fn frame_count(g: &Geometry, frames: &[u8]) -> usize
    ensures { result ≡ the_frame_count g.now frames.now }
{
    (frames.len() / frame_len(g)).min(65535)
}

// Whether there is a frame for each page.
#[tactic(auto, using(crate::proofs::Places::all_frames, crate::proofs::Places::no_frame))]
pub(crate) fn is_whole(g: &Geometry, frames: &[u8]) -> bool
    ensures all { result ≡ true → page_count g.now ≤ the_frame_count g.now frames.now }
    ensures few { result ≡ false → the_frame_count g.now frames.now < page_count g.now }
{
    frame_len(g) * g.pages() as usize <= frames.len()
}

// The first byte of a frame.
#[tactic(auto, using(crate::proofs::Places::frame_inside))]
pub(crate) fn start_of(g: &Geometry, frames: &[u8], f: usize) -> usize
    requires { f < the_frame_count g.now frames.now }
    ensures start { result ≡ f * frame_size g.now }
    ensures inside { result + frame_size g.now ≤ length frames.now }
{
    f * frame_len(g)
}

// A frame.
#[tactic(auto, unfolding(crate::specs::Frames::frame_at))]
pub(crate) fn frame<'a>(g: &Geometry, frames: &'a [u8], f: usize) -> &'a [u8]
    requires { f < the_frame_count g.now frames.now }
    ensures frame { result.now ≡ frame_at g.now frames.now f }
    ensures size { length result.now ≡ frame_size g.now }
{
    let start = start_of(g, frames, f);
    let end = start + frame_len(g);
    &frames[start..end]
}

// The number of the page in a frame.
fn page_of(g: &Geometry, frames: &[u8], f: usize) -> u16
    requires { f < the_frame_count g.now frames.now }
    ensures { result ≡ page_in g.now frames.now f }
{
    number_of(frame(g, frames, f))
}

// The first frame from `from` on, below `to`, that holds a page.
#[inline(never)]
fn first_with(g: &Geometry, frames: &[u8], from: usize, to: usize, page: u16) -> Option<usize>
    requires { to ≤ the_frame_count g.now frames.now }
    ensures found { IfSome result (λ f. (f < to) × (page_in g.now frames.now f ≡ page)) }
    ensures missing { result ≡ None → (f : ℕ) → from ≤ f → f < to → page_in g.now frames.now f ≢ page }
{
    for f in from..to {
        if page_of(g, frames, f) == page {
            return Some(f);
        }
    }
    None
}

// The first free frame from `from` on, below `to`.
fn first_free(g: &Geometry, frames: &[u8], from: usize, to: usize) -> Option<usize>
    requires { to ≤ the_frame_count g.now frames.now }
    ensures found { IfSome result (λ f. (from ≤ f) × (f < to) × (page_count g.now ≤ page_in g.now frames.now f)
        × ((h : ℕ) → from ≤ h → h < f → page_in g.now frames.now h < page_count g.now)) }
    ensures missing { result ≡ None → (f : ℕ) → from ≤ f → f < to → page_in g.now frames.now f < page_count g.now }
{
    for f in from..to {
        if u32::from(page_of(g, frames, f)) >= g.pages() {
            return Some(f);
        }
    }
    None
}

// The home of a page. (Where the frames are so many that it is the frame of the page's own number, no division is needed.)
fn home(g: &Geometry, frames: &[u8], page: u16) -> usize
    requires need { cache_need g.now ≤ length frames.now }
    requires page { page < page_count g.now }
    ensures home { result ≡ home_of g.now frames.now page }
    ensures below { result < the_frame_count g.now frames.now }
{
    let number = usize::from(page);
    if (number + 1) * frame_len(g) <= frames.len() {
        return number;
    }
    number % frame_count(g, frames)
}

// The frame that holds a page.
#[inline(always)]
pub(crate) fn find(g: &Geometry, frames: &[u8], page: u16) -> Option<usize>
    requires need { cache_need g.now ≤ length frames.now }
    requires page { page < page_count g.now }
    requires findable { IsFindable g.now frames.now }
    ensures found { IfSome result (λ f. (f < the_frame_count g.now frames.now) × (page_in g.now frames.now f ≡ page)) }
    ensures missing { result ≡ None → (f : ℕ) → f < the_frame_count g.now frames.now → page_in g.now frames.now f ≢ page }
{
    let home = home(g, frames, page);
    let head = frame(g, frames, home);
    if number_of(head) == page {
        return Some(home);
    }
    let (since, until) = strays(head);
    if since >= until {
        return None;
    }
    first_with(g, frames, since, until.min(frame_count(g, frames)), page)
}

// The frame of a page that is held.
pub(crate) fn holder(g: &Geometry, frames: &[u8], page: u16) -> usize
    requires need { cache_need g.now ≤ length frames.now }
    requires page { page < page_count g.now }
    requires findable { IsFindable g.now frames.now }
    requires holds { holds g.now frames.now page ≡ true }
    ensures below { result < the_frame_count g.now frames.now }
    ensures page { page_in g.now frames.now result ≡ page }
{
    match find(g, frames, page) {
        Some(f) => f,
        None => 0,
    }
}

// How many frames from the home on are looked at first for a free one.
const NEAR: usize = 8;

// A home tells of one more frame.
fn widen_one(g: &Geometry, frames: &mut [u8], home: usize, stray: u16)
    requires home { home < the_frame_count g.now frames.old }
    requires stray { stray < the_frame_count g.now frames.old }
    ensures here { Widened stray (frame_at g.now frames.old home) (frame_at g.now frames.new home) }
    ensures others { (h : ℕ) → h ≢ home → frame_at g.now frames.new h ≡ frame_at g.now frames.old h }
{
    let start = start_of(g, frames, home);
    let end = start + frame_len(g);
    widen(&mut frames[start..end], stray);
}

// No frame below that number is free.
pub(crate) fn bound_all(g: &Geometry, frames: &mut [u8], count: u16)
    requires need { cache_need g.now ≤ length frames.old }
    ensures here { Bounded count (frame_at g.now frames.old 0) (frame_at g.now frames.new 0) }
    ensures others { (h : ℕ) → h ≢ 0 → frame_at g.now frames.new h ≡ frame_at g.now frames.old h }
{
    let start = start_of(g, frames, 0);
    let end = start + frame_len(g);
    bound(&mut frames[start..end], count);
}

// A free frame for a page, and its home tells of it.
fn take(g: &Geometry, frames: &mut [u8], page: u16, free: usize) -> usize
    requires need { cache_need g.now ≤ length frames.old }
    requires page { page < page_count g.now }
    requires findable { IsFindable g.now frames.old }
    requires free { free < the_frame_count g.now frames.old }
    ensures result { result ≡ free }
    ensures findable { IsFindable g.now frames.new }
    ensures copies { AreSameCopies g.now frames.old frames.new }
    ensures near { IsNear g.now frames.new page free }
{
    let home = home(g, frames, page);
    if free != home {
        widen_one(g, frames, home, free as u16);
    }
    free
}

// The frame for a page that is not held: that of its own number if it is free, else any free one, else its own.
pub(crate) fn pick(g: &Geometry, frames: &mut [u8], page: u16) -> usize
    requires need { cache_need g.now ≤ length frames.old }
    requires page { page < page_count g.now }
    requires findable { IsFindable g.now frames.old }
    requires missing { (f : ℕ) → f < the_frame_count g.now frames.old → page_in g.now frames.old f ≢ page }
    ensures below { result < the_frame_count g.now frames.old }
    ensures free { AllInUse g.now frames.old ⊎ (page_count g.now ≤ page_in g.now frames.old result) }
    ensures home { page_count g.now ≤ the_frame_count g.now frames.old → result ≡ page }
    ensures findable { IsFindable g.now frames.new }
    ensures copies { AreSameCopies g.now frames.old frames.new }
    ensures near { IsNear g.now frames.new page result }
{
    let home = home(g, frames, page);
    let count = frame_count(g, frames);
    if let Some(free) = first_free(g, frames, home, count.min(home + NEAR)) {
        return take(g, frames, page, free);
    }
    let from = used(frame(g, frames, 0));
    match first_free(g, frames, from, count) {
        Some(free) => {
            bound_all(g, frames, free as u16);
            take(g, frames, page, free)
        }
        None => {
            bound_all(g, frames, count as u16);
            home
        }
    }
}

// Makes a frame free.
fn clear_one(g: &Geometry, frames: &mut [u8], f: usize)
    requires { f < the_frame_count g.now frames.old }
    ensures here { IsFree (frame_at g.now frames.old f) (frame_at g.now frames.new f) }
    ensures others { (h : ℕ) → h ≢ f → frame_at g.now frames.new h ≡ frame_at g.now frames.old h }
{
    let start = start_of(g, frames, f);
    let end = start + frame_len(g);
    empty(&mut frames[start..end]);
}

// A frame goes with an event from byte `at` of the device on.
fn follow_one(g: &Geometry, frames: &mut [u8], f: usize, at: usize, event: Event<'_>)
    requires frame { f < the_frame_count g.now frames.old }
    requires fits { at + span_of event < 2 ^ 32 }
    ensures here { Follows g.now.page at event.entry (frame_at g.now frames.old f) (frame_at g.now frames.new f) }
    ensures others { (h : ℕ) → h ≢ f → frame_at g.now frames.new h ≡ frame_at g.now frames.old h }
{
    let start = start_of(g, frames, f);
    let end = start + frame_len(g);
    follow(&mut frames[start..end], g.page() as usize, at, event);
}

// Makes all frames free.
pub(crate) fn clear(g: &Geometry, frames: &mut [u8])
    ensures { EachFrame g.now IsFree frames.old frames.new }
{
    for f in 0..frame_count(g, frames) {
        clear_one(g, frames, f);
    }
}

// The first page that may have bytes from byte `at` of the device on.
fn first_met(g: &Geometry, at: usize) -> usize
    ensures { (q : ℕ) → q < result → q * g.now.page + g.now.page ≤ at }
{
    at / g.page() as usize
}

// The pages of the volume from this one on lie behind these bytes of the device.
fn end_met(g: &Geometry, at: usize, count: usize) -> usize
    requires { at + count < 2 ^ 32 }
    ensures most { result ≤ page_count g.now }
    ensures behind { (q : ℕ) → q < page_count g.now → result ≤ q → at + count ≤ q * g.now.page }
{
    let page = g.page() as usize;
    ((at + count + page - 1) / page).min(g.pages() as usize)
}

// The frame of a page, if it is held, goes with an event from byte `at` of the device on.
fn follow_page(g: &Geometry, frames: &mut [u8], page: u16, at: usize, event: Event<'_>)
    requires need { cache_need g.now ≤ length frames.old }
    requires page { page < page_count g.now }
    requires findable { IsFindable g.now frames.old }
    requires fits { at + span_of event < 2 ^ 32 }
    ensures { OnePage g.now (Follows g.now.page at event.entry) page frames.old frames.new }
{
    if let Some(f) = find(g, frames, page) {
        follow_one(g, frames, f, at, event);
    }
}

// The pages that are held go with an event from byte `at` of the device on. (Before a failure, by which frames may become free, the
// first frame is to tell of no frame that it isn't: `bound_all` with 0.)
pub(crate) fn follow_all(g: &Geometry, frames: &mut [u8], at: usize, event: Event<'_>)
    requires need { cache_need g.now ≤ length frames.old }
    requires findable { IsFindable g.now frames.old }
    requires ready { IsReady g.now event frames.old }
    requires fits { at + span_of event < 2 ^ 32 }
    ensures { EachPage g.now (Follows g.now.page at event.entry) frames.old frames.new }
{
    let first = first_met(g, at);
    let end = end_met(g, at, span(event));
    for page in first..end {
        follow_page(g, frames, page as u16, at, event);
    }
}
