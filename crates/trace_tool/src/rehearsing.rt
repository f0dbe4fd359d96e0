//! The run of a script on an image in memory, and the judgement on its trace.
ghost use Rattle.std.specs.Prelude.{◌≡◌, ◌≤◌, length, IfSome, None};
ghost use Rattle.geometry.specs.Numbers.{write_refusal};
ghost use Rattle.tool_parts.specs.Fits.{HasLengths};
ghost use Rattle.tool_parts.specs.Lent.{lengths_of};
ghost use Rattle.trace_tool.specs.Copies.{volume_size};
ghost use Rattle.trace_tool.specs.Rehearsed.{Rehearses};
ghost use Rattle.trace_tool.specs.Traces.{EndsByRun};

use crate::copying::Copies;
use crate::ending::{TraceEnding, ending_of};
use flash_trace::{HeldScript, Recorder, check_trace};
use geometry::Geometry;
use nor_memory::MemBoard;
use script_run::run_on;
use std::alloc::Global;
use tool_parts::Buffers;

/// How a trace ends, and the status of the run in memory, if that came to its end.
#[derive(Clone, Copy, Debug, PartialEq, Eq)]
pub(crate) struct Judged {
    pub(crate) ending: TraceEnding,
    pub(crate) run: Option<u8>,
}

// A run in memory that came to its end: what it did, and its status.
#[derive(Drop)]
struct Rehearsal {
    recorder: Recorder,
    status: u8,
}

// Runs a script on an image; nothing where there is no memory for that.
fn rehearse(
    alloc: Global,
    g: &Geometry,
    image: Vec<u8>,
    script: &[u8],
    bufs: &mut Buffers<'_>,
) -> Option<Rehearsal>
    requires size { length image.items ≡ volume_size g.now }
    requires small { volume_size g.now ≤ 131072 }
    requires writable { write_refusal g.now ≡ None }
    requires room { HasLengths g.now (lengths_of bufs.old) }
    ensures { IfSome result (λ done. Rehearses g.now (lengths_of bufs.old) image.items script.now done.recorder done.status) }
{
    let Ok(script) = script.to_vec(alloc) else {
        return None;
    };
    let Ok(board) = MemBoard::new(alloc, image, g.phys()) else {
        return None;
    };
    let mut recorder = Recorder::new(alloc, board);
    let mut held = HeldScript::new(script);
    let status = run_on(*g, &mut recorder, &mut held, bufs);
    // (a device in memory fails for want of memory alone)
    if recorder.has_failed() {
        return None;
    }
    Some(Rehearsal { recorder, status })
}

/// Runs a script on an image, and judges what that did.
pub(crate) fn judge(alloc: Global, g: &Geometry, copies: Copies, bufs: &mut Buffers<'_>) -> Judged
    requires size { length copies.image.items ≡ volume_size g.now }
    requires small { volume_size g.now ≤ 131072 }
    requires short { length copies.script.items ≤ 16384 }
    requires writable { write_refusal g.now ≡ None }
    requires room { HasLengths g.now (lengths_of bufs.old) }
    ensures { EndsByRun g.now (lengths_of bufs.old) copies.image.items copies.script.items result.ending result.run }
{
    let slots = bufs.slots.len().min(65535) as u32;
    let Some(done) = rehearse(alloc, g, copies.image, copies.script.as_slice(), bufs) else {
        return Judged {
            ending: TraceEnding::NoMemory,
            run: None,
        };
    };
    let script = copies.script.as_slice();
    let recorder = &done.recorder;
    match check_trace(alloc, g, slots, recorder.first(), script, recorder.events()) {
        Ok(verdict) => Judged {
            ending: ending_of(verdict),
            run: Some(done.status),
        },
        Err(_) => Judged {
            ending: TraceEnding::NoMemory,
            run: None,
        },
    }
}
