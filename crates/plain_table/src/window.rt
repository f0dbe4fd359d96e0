// The write window: bytes of the last writes that wait, all inside one data page.
ghost use Rattle.std.specs.Prelude.{◌≡◌, ◌<◌, ◌^◌, IfOk};
ghost use Rattle.table_model.specs.Ask.{asked};
ghost use Rattle.table_model.specs.Window.{page_end as the_page_end, incoming_at as the_incoming_at, incoming_of as the_incoming_of};
ghost use Rattle.table_model.specs.Window.{continues as the_continues, may_wait as the_may_wait, extended as the_extended, begun as the_begun};
ghost use Rattle.plain_table.specs.Seen.{state_of};
ghost use Rattle.plain_table.specs.Moments.{window_of, coming};

use crate::Flat;
use crate::changes::place;
use crate::counts::counted;
use crate::search::find_id;
use crate::slots::open_at;
use geometry::Geometry;
use std::alloc::AllocError;
use table_model::Call;

/// Bytes that were written and are not on the chip yet.
#[derive(Clone, Copy, Debug, PartialEq, Eq)]
pub struct PlainWaiting {
    /// The descriptor that they were written through.
    pub fd: u16,
    /// The id of their file.
    pub id: u16,
    /// The place of the first in the file, in bytes.
    pub start: u32,
    /// How many there are.
    pub len: u32,
}

// The bytes that a write brings, and whether the descriptor lets none wait.
#[derive(Clone, Copy)]
pub(crate) struct Coming {
    pub(crate) bytes: PlainWaiting,
    pub(crate) direct: bool,
}

impl Flat {
    // What a write of so many bytes through a descriptor brings.
    #[tactic(auto, unfolding(table_model::specs::Steps::open_file))]
    fn incoming_at(&self, fd: u16, len: u32) -> Result<Option<Coming>, AllocError>
        ensures { IfOk result (λ i. coming i ≡ the_incoming_at (state_of self.now) fd len) }
    {
        let Some(d) = open_at(self.slots.as_slice(), fd) else {
            return Ok(None);
        };
        let Some(f) = find_id(self.files.as_slice(), d.id) else {
            return Ok(None);
        };
        let start = place(d, f)?;
        Ok(Some(Coming {
            bytes: PlainWaiting {
                fd,
                id: f.id,
                start,
                len,
            },
            direct: d.flags & 32 != 0,
        }))
    }

    // What a call writes, if it is a write.
    #[tactic(auto, unfolding(table_model::specs::Window::incoming_of))]
    pub(crate) fn incoming_of(&self, call: &Call<'_>) -> Result<Option<Coming>, AllocError>
        ensures { IfOk result (λ i. coming i ≡ the_incoming_of (state_of self.now) (asked call.now)) }
    {
        match *call {
            Call::Write { fd, bytes } => {
                let len = counted(bytes.len() as u64)? as u32;
                self.incoming_at(fd, len)
            }
            Call::Fill { fd, count, byte: _ } => self.incoming_at(fd, count),
            _ => Ok(None),
        }
    }
}

// Where the data page of a place ends, in bytes of the file.
fn page_end(g: &Geometry, at: u32) -> u64
    ensures { result ≡ the_page_end g.now at }
{
    let body = g.body();
    (u64::from(at / body) + 1) * u64::from(body)
}

// Whether a write continues what waits: it goes through the same descriptor, starts where that ends, and lies in its data page.
pub(crate) fn continues(
    g: &Geometry,
    window: Option<PlainWaiting>,
    incoming: Option<Coming>,
) -> bool
    ensures { result ≡ the_continues g.now (window_of window) (coming incoming) }
{
    match (window, incoming) {
        (Some(w), Some(i)) => {
            w.fd == i.bytes.fd
                && u64::from(w.start) + u64::from(w.len) == u64::from(i.bytes.start)
                && u64::from(i.bytes.start) + u64::from(i.bytes.len) <= page_end(g, w.start)
        }
        _ => false,
    }
}

// Whether a write may wait: it has a byte, isn't direct, and lies in one data page.
pub(crate) fn may_wait(g: &Geometry, incoming: Option<Coming>) -> bool
    ensures { result ≡ the_may_wait g.now (coming incoming) }
{
    match incoming {
        Some(i) => {
            !i.direct
                && i.bytes.len > 0
                && u64::from(i.bytes.start) + u64::from(i.bytes.len) <= page_end(g, i.bytes.start)
        }
        None => false,
    }
}

// What waits after a write that continues.
pub(crate) fn extended(
    window: Option<PlainWaiting>,
    incoming: Option<Coming>,
) -> Result<Option<PlainWaiting>, AllocError>
    ensures { IfOk result (λ w. window_of w ≡ the_extended (window_of window) (coming incoming)) }
{
    match (window, incoming) {
        (Some(w), Some(i)) => {
            let len = counted(u64::from(w.len) + u64::from(i.bytes.len))? as u32;
            Ok(Some(PlainWaiting { len, ..w }))
        }
        (w, _) => Ok(w),
    }
}

// What waits after a write that begins a window.
pub(crate) fn begun(incoming: Option<Coming>) -> Option<PlainWaiting>
    ensures { window_of result ≡ the_begun (coming incoming) }
{
    match incoming {
        Some(i) => Some(i.bytes),
        None => None,
    }
}
