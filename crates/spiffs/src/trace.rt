//! The command `trace`.
use crate::detect::tell_found;
use crate::{NO_VOLUME, explain_status};
use host_edge::{FileChip, StdBoard, StdSource};
use std::io::{Read, Write};
use tool_parts::Buffers;
use trace_tool::{Traced, trace_tool};

// Says on standard error what the run in memory ended with, where that isn't 0.
fn explain_run(rt: &HostRuntime, words: &[String], status: u8) {
    if status == 0 {
        return;
    }
    let _said = eprintln!(rt; "spiffs: the run in memory ended with status {status}");
    explain_status(rt, words, status);
    if status == NO_VOLUME {
        tell_found(rt, words);
    }
}

/// Does the command over a board and a script. What the run in memory ended with is said on standard error; why the command failed is left
/// to the caller.
pub fn trace_on<W: Write + Drop, R: Read + Drop>(
    rt: &HostRuntime,
    words: &[String],
    board: &mut StdBoard<W, FileChip>,
    script: &mut StdSource<R>,
    bufs: &mut Buffers<'_>,
) -> u8 {
    let Traced { status, run } = trace_tool(rt.alloc(), words, board, script, bufs);
    if let Some(ended) = run {
        explain_run(rt, words, ended);
    }
    status
}
