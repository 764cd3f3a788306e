// A run so far, and why a call stopped.
ghost use Rattle.std.specs.Prelude.{◌≡◌};
ghost use Rattle.stops.specs.Run.{beginning, stop_number};

use block::Table;
use building::{LEAST, build};
use ticket::Ticket;

// No step is worked after so many.
pub const STEPS_MOST: u32 = 1000000;

// The places are those of the next line in the script, and of the next line in the output.
#[derive(Clone, Copy)]
pub struct Run {
    pub place: usize,
    pub wrote: usize,
    pub table: Table,
    pub steps: u32,
    pub headed: bool,
}

// Why a call stopped: nothing left; 16, the table is not sound; 20, no good header; 21, a malformed
// line; 22, a line that is not finished; 23, no room for the next output line; 24, a line after
// 1,000,000 steps or more.
#[derive(Clone, Copy, Debug, PartialEq, Eq)]
pub enum Stop {
    Finished,
    Unsound,
    BadHeader,
    Malformed,
    Unfinished,
    NoRoom,
    TooMany,
}

#[derive(Clone, Copy)]
pub struct Stopped {
    pub run: Run,
    pub why: Stop,
}

// The run before its header is read. Its table is not looked at.
pub fn beginning() -> Run
    ensures { result ≡ beginning }
{
    Run {
        place: 0,
        wrote: 0,
        table: build(LEAST, Ticket(0)).table,
        steps: 0,
        headed: false,
    }
}

// Document 01's number for a stop.
pub fn stop_number(s: Stop) -> u16
    ensures { result ≡ stop_number s }
{
    match s {
        Stop::Finished => 0,
        Stop::Unsound => 16,
        Stop::BadHeader => 20,
        Stop::Malformed => 21,
        Stop::Unfinished => 22,
        Stop::NoRoom => 23,
        Stop::TooMany => 24,
    }
}
