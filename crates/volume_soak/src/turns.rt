ghost use Rattle.std.specs.Prelude.{◌≡◌, ◌≤◌, ℕ, List, length, not, IfOk, IfErr, Err, Some};
ghost use Rattle.nor_core.specs.Count.{Rose};
ghost use Rattle.table_model.specs.Ask.{asked};
ghost use Rattle.table_model.specs.Steps.{is_refusal};
ghost use Rattle.file_calls.specs.Replies.{shown_by};
ghost use Rattle.volume_run.specs.Ready.{IsMoved};
ghost use Rattle.volume_run.specs.Stops.{IsApart, StopsFrom};
ghost use Rattle.volume_soak.specs.Asks.{IsDraw, asks_of, bytes_of};
ghost use Rattle.volume_soak.specs.Turns.{through, on_opened, removal, turn};
ghost use Rattle.volume_soak.specs.Doing.{DidFrom};

use crate::draws::{Draw, Kind};
use nor_core::{Nor, NorState};
use table_model::Call;
use volume::{Told, Volume};
use volume_run::{Stop, ask, open};

/// Bytes that a turn reads at most.
const READ: u32 = 256;

/// What is done through the descriptor of an opened file.
#[derive(Clone, Copy, Debug, PartialEq, Eq)]
pub(crate) enum Task {
    /// So many bytes of a value are written.
    Fill { count: u32, byte: u8 },
    /// So many bytes are read, at most.
    Read { count: u32 },
}

impl Task {
    // The call through a descriptor.
    fn call(self, fd: u16) -> Call<'static>
        ensures { asked result ≡ asks_of self fd }
    {
        match self {
            Task::Fill { count, byte } => Call::Fill { fd, count, byte },
            Task::Read { count } => Call::Read { fd, count },
        }
    }
}

// Whether a call that told this was done.
fn is_done(told: &Told) -> bool
    ensures { (lent : List ℕ) → result ≡ not (is_refusal (shown_by told.now lent)) }
{
    !matches!(told, Told::Refusal(_))
}

// Does a task through a descriptor, and closes that.
#[tactic(auto, using(volume_run::proofs::Moving::moved_then, volume_run::proofs::Stopping::stops_then))]
fn finish<N: Nor>(
    volume: &mut Volume<'_, N>,
    fd: u16,
    task: Task,
    lent: &mut [u8],
) -> Result<bool, Stop>
    requires room { bytes_of task ≤ length lent.old }
    ensures size { length lent.new ≡ length lent.old }
    ensures moved { IsMoved volume.old volume.new }
    ensures cause { result ≡ Err Stop.Fault → Rose (N.faults volume.old.nor.now) (N.faults volume.new.nor.now) }
    ensures apart { IfErr result IsApart }
    ensures did { IfOk result (DidFrom volume.old (λ g s. on_opened g s (asks_of task) (Some fd)) volume.new) }
    ensures stops { IfErr result (StopsFrom volume.old) }
{
    let told = ask(volume, &task.call(fd), lent)?;
    match ask(volume, &Call::Close { fd }, lent) {
        Ok(_) => Ok(is_done(&told)),
        Err(why) => Err(why),
    }
}

// Opens a file, and does a task with it.
#[tactic(auto, using(volume_run::proofs::Moving::moved_then, volume_run::proofs::Stopping::stops_opened))]
fn through<N: Nor>(
    volume: &mut Volume<'_, N>,
    name: &[u8],
    flags: u32,
    task: Task,
    lent: &mut [u8],
) -> Result<bool, Stop>
    requires room { bytes_of task ≤ length lent.old }
    ensures size { length lent.new ≡ length lent.old }
    ensures moved { IsMoved volume.old volume.new }
    ensures cause { result ≡ Err Stop.Fault → Rose (N.faults volume.old.nor.now) (N.faults volume.new.nor.now) }
    ensures apart { IfErr result IsApart }
    ensures did { IfOk result (DidFrom volume.old (λ g s. through g s name.now flags (asks_of task)) volume.new) }
    ensures stops { IfErr result (StopsFrom volume.old) }
{
    match open(volume, name, flags)? {
        Some(fd) => finish(volume, fd, task, lent),
        None => Ok(false),
    }
}

// Removes a file.
fn remove<N: Nor>(volume: &mut Volume<'_, N>, name: &[u8], lent: &mut [u8]) -> Result<bool, Stop>
    ensures size { length lent.new ≡ length lent.old }
    ensures moved { IsMoved volume.old volume.new }
    ensures cause { result ≡ Err Stop.Fault → Rose (N.faults volume.old.nor.now) (N.faults volume.new.nor.now) }
    ensures apart { IfErr result IsApart }
    ensures did { IfOk result (DidFrom volume.old (λ g s. removal g s name.now) volume.new) }
    ensures stops { IfErr result (StopsFrom volume.old) }
{
    let told = ask(volume, &Call::Remove { name }, lent)?;
    Ok(is_done(&told))
}

/// Makes the turn of a draw, and answers whether all of it was done. The lent bytes are for what is written and read, at least 600.
pub(crate) fn turn<N: Nor>(
    volume: &mut Volume<'_, N>,
    draw: Draw,
    lent: &mut [u8],
) -> Result<bool, Stop>
    requires few { draw.count ≤ 600 }
    requires room { 600 ≤ length lent.old }
    ensures size { length lent.new ≡ length lent.old }
    ensures moved { IsMoved volume.old volume.new }
    ensures cause { result ≡ Err Stop.Fault → Rose (N.faults volume.old.nor.now) (N.faults volume.new.nor.now) }
    ensures apart { IfErr result IsApart }
    ensures did { IfOk result (λ ok. (r : ℕ) → IsDraw r draw → DidFrom volume.old (λ g s. turn g s r) volume.new ok) }
    ensures stops { IfErr result (StopsFrom volume.old) }
{
    let Draw {
        kind,
        name,
        count,
        byte,
    } = draw;
    let fill = Task::Fill { count, byte };
    match kind {
        Kind::Adds => through(volume, &name, 21, fill, lent),
        Kind::Makes => through(volume, &name, 22, fill, lent),
        Kind::Drops => remove(volume, &name, lent),
        Kind::Looks => through(volume, &name, 8, Task::Read { count: READ }, lent),
    }
}
