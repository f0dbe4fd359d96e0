ghost use Rattle.std.specs.Prelude.{◌≡◌, map, string_bytes, false, None};
ghost use Rattle.nor_core.specs.Count.{Rose};
ghost use Rattle.tool_core.specs.Among.{MayEnd};
ghost use Rattle.tool_core.specs.Plan.{refusal_of};
ghost use Rattle.tool_core.specs.Planned.{IsPlanned};
ghost use Rattle.tool_core.specs.Words.{writes, has_script, has_folder, HasLimit};
ghost use Rattle.tool_parts.specs.Among.{EndsAmong};
ghost use Rattle.tool_parts.specs.Endings.{RefusesIf};
ghost use Rattle.tool_core.specs.Does.{Does};
ghost use Rattle.tool_parts.specs.Fits.{FitsFor, HasLengths};
ghost use Rattle.tool_parts.specs.Later.{IsLaterStatus};
ghost use Rattle.tool_parts.specs.Lent.{lengths_of, asked_of};
ghost use Rattle.tool_core.specs.declared.plan.Command.{Command};

use crate::checking::check_on;
use crate::extracting::extract_on;
use crate::listing::list_on;
use crate::making::make_on;
use crate::mapping::map_on;
use crate::plan::{Command, plan};
use crate::scrubbing::scrub_on;
use crate::soaking::soak_on;
use crate::words::Verb;
use folder_core::{Folder, FolderState};
use nor_core::{Board, Nor, NorState, Source};
use script_run::run_on;
use tool_parts::{Buffers, conclude, measure};

// Does a command that isn't refused.
fn perform<B: Board, S: Source, F: Folder>(
    command: Command,
    board: &mut B,
    script: &mut S,
    folder: &mut F,
    bufs: &mut Buffers<'_>,
) -> u8
    requires fits { FitsFor (writes command.verb) command.geometry (B.unit board.old) (B.size board.old) }
    requires room { HasLengths command.geometry (lengths_of bufs.old) }
    requires limit { HasLimit command.verb }
    ensures later { IsLaterStatus result }
    ensures board_fault { result ≡ 7 → Rose (B.faults board.old) (B.faults board.new) }
    ensures script_fault { result ≡ 8 → Rose (S.faults script.old) (S.faults script.new) }
    ensures folder_fault { result ≡ 9 → Rose (F.faults folder.old) (F.faults folder.new) }
    ensures does { Does B.NorState S.Source F.FolderState
        (lengths_of bufs.old) command.verb command.geometry board.old board.new script.old script.new folder.old folder.new result }
    ensures ends { EndsAmong B.NorState (MayEnd command.verb) board.old board.new result }
    ensures untaken { has_script command.verb ≡ false → script.new ≡ script.old }
    ensures untouched { has_folder command.verb ≡ false → folder.new ≡ folder.old }
{
    let g = command.geometry;
    match command.verb {
        Verb::Run => run_on(g, board, script, bufs),
        Verb::List => list_on(g, board, bufs),
        Verb::Check => check_on(g, board, bufs),
        Verb::Extract => extract_on(g, board, folder, bufs),
        Verb::Make => make_on(g, board, folder, bufs),
        Verb::Soak { seed, turns } => soak_on(g, seed, turns, board, bufs),
        Verb::Scrub { limit } => scrub_on(g, limit, board, bufs),
        Verb::Map { id } => map_on(g, id, board, bufs),
    }
}

/// Does the command that the words spell, on a board, and answers its status. The forms are
/// `run PAGE BLOCK BLOCKS META MAGIC CHIP`, the same with `list` or `check` in the place of `run`,
/// `extract PAGE BLOCK BLOCKS META MAGIC CHIP FOLDER`, the same with `make`,
/// `soak PAGE BLOCK BLOCKS META MAGIC CHIP SEED COUNT`, `scrub PAGE BLOCK BLOCKS META MAGIC CHIP LIMIT` and
/// `map PAGE BLOCK BLOCKS META MAGIC CHIP ID`: the numbers in decimal digits without a leading zero, SEED below 2 ^ 64, COUNT at
/// most 1,000,000, LIMIT 1 to 32,767, ID at most 65,535 and the others below 2 ^ 32, MAGIC `plain` or `len`, CHIP and FOLDER any words that aren't
/// empty, which aren't read here. `run` mounts and checks the volume, and runs each line of the script as a call; `list` mounts
/// it and says its files and its damaged ids, and writes nothing; `extract` says the same and puts each file into the
/// folder; `make` formats it and writes each file of the folder into it, in its order; `check` mounts and checks it, and says what the check found and did;
/// `soak` formats it, does COUNT turns of calls that are drawn from SEED, and says a summary; `scrub` mounts and checks it,
/// makes scrub steps until one moves no block or as many as there are blocks were made, and says how many moved one and how many blocks are free;
/// `map` mounts and checks it, collects garbage, and says for each of the first 4,096 data pages of the file with that id which page of the volume it is.
/// It takes no memory but what is lent.
pub fn spiffs_tool<B: Board, S: Source, F: Folder>(
    words: &[String],
    board: &mut B,
    script: &mut S,
    folder: &mut F,
    bufs: &mut Buffers<'_>,
) -> u8
    // What is refused before the device is read: its closing line is said, and nothing else happens.
    ensures refused { RefusesIf B.NorState board.old board.new (refusal_of (asked_of B.NorState (map string_bytes words.now) board.old bufs.old)) result }
    // All else is a command, on volumes of one geometry ..
    ensures planned { refusal_of (asked_of B.NorState (map string_bytes words.now) board.old bufs.old) ≡ None →
        (command : Command) × IsPlanned (asked_of B.NorState (map string_bytes words.now) board.old bufs.old) command }
    // .. and it is done as that command says.
    ensures does { (command : Command) → IsPlanned (asked_of B.NorState (map string_bytes words.now) board.old bufs.old) command →
        Does B.NorState S.Source F.FolderState
        (lengths_of bufs.old) command.verb command.geometry board.old board.new script.old script.new folder.old folder.new result }
    // Whatever the devices tell, it comes to one of the endings of that command, and says the closing line of that last.
    ensures ends { (command : Command) → IsPlanned (asked_of B.NorState (map string_bytes words.now) board.old bufs.old) command →
        EndsAmong B.NorState (MayEnd command.verb) board.old board.new result }
    // Nothing is taken of a script, and no folder is touched, but by a command that has one.
    ensures untaken { ((command : Command) → IsPlanned (asked_of B.NorState (map string_bytes words.now) board.old bufs.old) command →
        has_script command.verb ≡ false) →
        script.new ≡ script.old }
    ensures untouched { ((command : Command) → IsPlanned (asked_of B.NorState (map string_bytes words.now) board.old bufs.old) command →
        has_folder command.verb ≡ false) →
        folder.new ≡ folder.old }
    // A fault is told only where one was counted.
    ensures board_fault { result ≡ 7 → Rose (B.faults board.old) (B.faults board.new) }
    ensures script_fault { result ≡ 8 → Rose (S.faults script.old) (S.faults script.new) }
    ensures folder_fault { result ≡ 9 → Rose (F.faults folder.old) (F.faults folder.new) }
{
    match plan(words, board.unit(), board.size(), &measure(bufs)) {
        Err(ending) => conclude(board, ending),
        Ok(command) => perform(command, board, script, folder, bufs),
    }
}
