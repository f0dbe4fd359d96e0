//! How a trace ends that isn't refused.
ghost use Rattle.std.specs.Prelude.{◌≡◌, []};
ghost use Rattle.tool_parts.specs.Endings.{ClosesWith};
ghost use Rattle.trace_tool.specs.Endings.{ending_status, legal_line, event_line, ending_line, ending_of as the_ending_of};

use flash_trace::Verdict;
use nor_core::{Board, NorState};
use tool_parts::{Closing, close_with, put, put_count};

/// How a trace ends that isn't refused.
#[derive(Clone, Copy, Debug, PartialEq, Eq)]
pub(crate) enum TraceEnding {
    /// So many events, each a right one between what a power cut may leave, with so many replies.
    Legal { events: u64, replies: u32 },
    /// The event of that number, from 0, isn't right, or what stands before it is nothing that a power cut may leave.
    NotLegal(u64),
    /// The volume or the script is too large to be traced.
    TooLarge,
    /// There is no memory.
    NoMemory,
    /// The board failed.
    BoardFault,
    /// The script could not be read.
    ScriptFault,
}

impl TraceEnding {
    /// The status that the command answers.
    pub(crate) fn status(self) -> u8
        ensures { result ≡ ending_status self }
    {
        match self {
            TraceEnding::Legal { .. } => 0,
            TraceEnding::BoardFault => 7,
            TraceEnding::ScriptFault => 8,
            TraceEnding::NoMemory => 15,
            TraceEnding::NotLegal(_) => 19,
            TraceEnding::TooLarge => 20,
        }
    }
}

/// How a trace ends on which that is the verdict.
pub(crate) fn ending_of(verdict: Verdict) -> TraceEnding
    ensures { result ≡ the_ending_of verdict }
{
    match verdict {
        Verdict::Legal { events, replies } => TraceEnding::Legal { events, replies },
        Verdict::Outside { at } | Verdict::WrongBits { at } | Verdict::BadCut { at } => {
            TraceEnding::NotLegal(at)
        }
        Verdict::TooLarge => TraceEnding::TooLarge,
    }
}

// Appends how many events were legal, and how many replies there were.
fn put_legal(line: &mut Closing, events: u64, replies: u32)
    requires { line.old.items ≡ [] }
    ensures { line.new.items ≡ legal_line events replies }
{
    put_count(line, b"legal ", events);
    put_count(line, b" events ", u64::from(replies));
    put(line, b" replies\n");
}

// Appends which event isn't legal.
fn put_event(line: &mut Closing, at: u64)
    requires { line.old.items ≡ [] }
    ensures { line.new.items ≡ event_line at }
{
    put_count(line, b"! event ", at);
    put(line, b"\n");
}

// Appends the closing line of an ending, with the byte that ends it; nothing where there is none.
fn put_ending(line: &mut Closing, ending: TraceEnding)
    requires { line.old.items ≡ [] }
    ensures { line.new.items ≡ ending_line ending }
{
    match ending {
        TraceEnding::Legal { events, replies } => put_legal(line, events, replies),
        TraceEnding::NotLegal(at) => put_event(line, at),
        TraceEnding::TooLarge => put(line, b"! trace too large\n"),
        TraceEnding::NoMemory => put(line, b"! memory\n"),
        TraceEnding::ScriptFault => put(line, b"! script fault\n"),
        TraceEnding::BoardFault => {}
    }
}

// The closing line of an ending; empty where there is none.
fn line_of(ending: TraceEnding) -> Closing
    ensures { result.items ≡ ending_line ending }
{
    let mut line = Closing::new();
    put_ending(&mut line, ending);
    line
}

/// Says the closing line of an ending, and answers the status: 7 where the board failed.
pub(crate) fn say_ending<B: Board>(board: &mut B, ending: TraceEnding) -> u8
    ensures { ClosesWith B.NorState board.old board.new (ending_line ending) (ending_status ending) result }
{
    close_with(board, line_of(ending).as_slice(), ending.status())
}
