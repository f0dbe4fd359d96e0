// The chip and the script, whole in memory.
ghost use Rattle.std.specs.Prelude.{◌≡◌, ◌⊎◌, ◌+◌, ◌<◌, ◌≤◌, ◌++◌, [], length, IfOk, IfErr, OnOk, Err};
ghost use Rattle.nor_core.specs.Count.{Rose};
ghost use Rattle.nor_core.specs.Device.{OnlyReads};

use nor_core::{Board, Failed, Nor, NorState, Source};
use std::alloc::{AllocError, Global};
use tool_parts::Ending;

// How many bytes a script may have.
const LIMIT: usize = 16_777_216;

// How many bytes are asked of a script at a time.
const PIECE: usize = 4096;

// Why there is no verdict: an ending, or there is no memory.
#[derive(Clone, Copy)]
pub(crate) enum Stop {
    Ends(Ending),
    NoMemory,
}

impl From<AllocError> for Stop {
    ghost use Rattle.rehearse_tool.specs.declared.input.Stop.{Stop};

    ghost from_gives = { λ _ stop. stop ≡ Stop.NoMemory };

    fn from(_: AllocError) -> Stop {
        Stop::NoMemory
    }
}

// Reads the bytes of a chip.
fn read_into<B: Board>(board: &mut B, into: &mut [u8]) -> Result<(), Stop>
    requires length { length into.old ≡ B.size board.old }
    requires some { 0 < length into.old }
    ensures read { B.tells board.old → OnOk result (into.new ≡ B.bytes board.old) }
    ensures only { OnlyReads B.NorState board.old board.new }
    ensures cause { IfErr result (λ stop. (stop ≡ Stop.Ends Ending.BoardFault) × Rose (B.faults board.old) (B.faults board.new)) }
{
    match board.read(0, into) {
        Ok(()) => Ok(()),
        Err(Failed) => Err(Stop::Ends(Ending::BoardFault)),
    }
}

// The bytes of a chip.
pub(crate) fn read_image<B: Board>(alloc: Global, board: &mut B) -> Result<Vec<u8>, Stop>
    requires { 0 < B.size board.old }
    ensures read { B.tells board.old → IfOk result (λ image. image.items ≡ B.bytes board.old) }
    ensures long { IfOk result (λ image. length image.items ≡ B.size board.old) }
    ensures only { OnlyReads B.NorState board.old board.new }
    ensures cause { IfErr result (λ stop. (stop ≡ Stop.NoMemory) ⊎ ((stop ≡ Stop.Ends Ending.BoardFault) × Rose (B.faults board.old) (B.faults board.new))) }
{
    let mut image = vec![in alloc; 0u8; board.size() as usize]?;
    read_into(board, image.as_mut_slice())?;
    Ok(image)
}

// Puts the next bytes of a script behind those that were read, and answers how many.
fn read_more<S: Source>(script: &mut S, text: &mut Vec<u8>) -> Result<usize, Stop>
    ensures took { S.tells script.old → IfOk result (λ n. text.new.items ++ S.left script.new ≡ text.old.items ++ S.left script.old) }
    ensures count { IfOk result (λ n. length text.new.items ≡ length text.old.items + n) }
    ensures end { S.tells script.old → IfOk result (λ n. n ≡ 0 → S.left script.new ≡ []) }
    ensures told { S.tells script.old → S.tells script.new }
    ensures faults { S.faults script.old ≤ S.faults script.new }
    ensures cause { IfErr result (λ stop. (stop ≡ Stop.NoMemory) ⊎ ((stop ≡ Stop.Ends Ending.SourceFault) × Rose (S.faults script.old) (S.faults script.new))) }
{
    let mut piece = [0; PIECE];
    match script.read(&mut piece) {
        Ok(count) => {
            text.extend_from_slice(&piece[..count])?;
            Ok(count)
        }
        Err(Failed) => Err(Stop::Ends(Ending::SourceFault)),
    }
}

// The bytes of a script, of which there are 16,777,216 at most.
pub(crate) fn read_script<S: Source>(alloc: Global, script: &mut S) -> Result<Vec<u8>, Stop>
    ensures whole { S.tells script.old → IfOk result (λ text. text.items ≡ S.left script.old) }
    ensures few { IfOk result (λ text. length text.items ≤ 16777216) }
    ensures long { S.tells script.old → result ≡ Err (Stop.Ends Ending.TooLong) → 16777216 < length (S.left script.old) }
    ensures faults { S.faults script.old ≤ S.faults script.new }
    ensures cause { IfErr result (λ stop. (stop ≡ Stop.NoMemory)
        ⊎ ((stop ≡ Stop.Ends Ending.TooLong) ⊎ ((stop ≡ Stop.Ends Ending.SourceFault) × Rose (S.faults script.old) (S.faults script.new)))) }
{
    let mut text = Vec::new(alloc);
    while text.len() <= LIMIT {
        if read_more(script, &mut text)? == 0 {
            return Ok(text);
        }
    }
    Err(Stop::Ends(Ending::TooLong))
}
