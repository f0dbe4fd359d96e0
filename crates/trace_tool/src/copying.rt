//! The volume of a board and a script, copied into memory.
ghost use Rattle.std.specs.Prelude.{◌≡◌, ◌+◌, ◌<◌, ◌≤◌, ◌++◌, [], length, take, IfOk, IfErr, OnErr};
ghost use Rattle.nor_core.specs.Count.{Rose};
ghost use Rattle.nor_core.specs.Device.{OnlyReads};
ghost use Rattle.trace_tool.specs.Copies.{volume_size, IsVolumeOf, IsScriptOf, StopsVolume, StopsScript, StopsCopy};

use crate::ending::TraceEnding;
use geometry::Geometry;
use nor_core::{Board, Failed, Nor, NorState, Source};
use std::alloc::Global;

// The most bytes of a volume that is traced.
const MOST_BYTES: u32 = 131_072;

// The most bytes of a script that is traced.
const MOST_SCRIPT: usize = 16_384;

/// A volume's bytes, and a script.
#[derive(Drop)]
pub(crate) struct Copies {
    pub(crate) image: Vec<u8>,
    pub(crate) script: Vec<u8>,
}

// Copies the bytes of the volume.
fn copy_volume<B: Board>(alloc: Global, g: &Geometry, board: &mut B) -> Result<Vec<u8>, TraceEnding>
    requires inside { volume_size g.now ≤ B.size board.old }
    requires small { volume_size g.now ≤ 131072 }
    ensures reads { OnlyReads B.NorState board.old board.new }
    ensures copied { IfOk result (λ image. IsVolumeOf B.NorState g.now board.old image.items) }
    ensures stops { IfErr result (StopsVolume B.NorState board.old board.new) }
{
    let Ok(mut image) = vec![in alloc; 0u8; (g.blocks() * g.block()) as usize] else {
        return Err(TraceEnding::NoMemory);
    };
    match board.read(0, &mut image) {
        Ok(()) => Ok(image),
        Err(Failed) => Err(TraceEnding::BoardFault),
    }
}

// Reads bytes of a script behind the first ones of a text, `most` at most.
fn read_behind<S: Source>(
    script: &mut S,
    text: &mut [u8],
    end: usize,
    most: usize,
) -> Result<usize, Failed>
    requires some { 0 < most }
    requires inside { end + most ≤ length text.old }
    ensures within { IfOk result (λ n. n ≤ most) }
    ensures took { S.tells script.old → IfOk result (λ n. take end text.old ++ S.left script.old ≡ take (end + n) text.new ++ S.left script.new) }
    ensures finished { S.tells script.old → IfOk result (λ n. n ≡ 0 → S.left script.old ≡ []) }
    ensures told { S.tells script.old → S.tells script.new }
    ensures faults { S.faults script.old ≤ S.faults script.new }
    ensures cause { OnErr result (Rose (S.faults script.old) (S.faults script.new)) }
{
    script.read(&mut text[end..end + most])
}

// Takes a script into bytes from the front on, and answers how many it has; where that are all of the bytes, it may have more.
fn take_script<S: Source>(script: &mut S, text: &mut [u8]) -> Result<usize, Failed>
    ensures within { IfOk result (λ n. n ≤ length text.new) }
    ensures took { S.tells script.old → IfOk result (λ n. S.left script.old ≡ take n text.new ++ S.left script.new) }
    ensures finished { S.tells script.old → IfOk result (λ n. n < length text.new → S.left script.old ≡ take n text.new) }
    ensures faults { S.faults script.old ≤ S.faults script.new }
    ensures cause { OnErr result (Rose (S.faults script.old) (S.faults script.new)) }
{
    let mut end = 0;
    while end < text.len() {
        let most = text.len() - end;
        let count = read_behind(script, text, end, most)?;
        if count == 0 {
            return Ok(end);
        }
        end += count;
    }
    Ok(end)
}

// Copies a script.
fn copy_script<S: Source>(alloc: Global, script: &mut S) -> Result<Vec<u8>, TraceEnding>
    ensures copied { IfOk result (λ text. IsScriptOf S.Source script.old text.items) }
    ensures faults { S.faults script.old ≤ S.faults script.new }
    ensures stops { IfErr result (StopsScript S.Source script.old script.new) }
{
    let Ok(mut text) = vec![in alloc; 0u8; MOST_SCRIPT + 1] else {
        return Err(TraceEnding::NoMemory);
    };
    let Ok(end) = take_script(script, &mut text) else {
        return Err(TraceEnding::ScriptFault);
    };
    if end > MOST_SCRIPT {
        return Err(TraceEnding::TooLarge);
    }
    text.truncate(end);
    Ok(text)
}

/// Copies the volume of a board and a script, where they aren't too large; else how the command ends.
pub(crate) fn copy_both<B: Board, S: Source>(
    alloc: Global,
    g: &Geometry,
    board: &mut B,
    script: &mut S,
) -> Result<Copies, TraceEnding>
    requires inside { volume_size g.now ≤ B.size board.old }
    ensures reads { OnlyReads B.NorState board.old board.new }
    ensures faults { S.faults script.old ≤ S.faults script.new }
    ensures image { IfOk result (λ copies. IsVolumeOf B.NorState g.now board.old copies.image.items) }
    ensures script { IfOk result (λ copies. IsScriptOf S.Source script.old copies.script.items) }
    ensures stops { IfErr result (StopsCopy B.NorState S.Source g.now board.old board.new script.old script.new) }
{
    if g.blocks() * g.block() > MOST_BYTES {
        return Err(TraceEnding::TooLarge);
    }
    let image = copy_volume(alloc, g, board)?;
    let script = copy_script(alloc, script)?;
    Ok(Copies { image, script })
}
