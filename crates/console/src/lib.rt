// What our programs share: the turns in which a text is read on standard input and worked, and why a run stopped,
// said on standard error.
#![tactic(auto)]

mod shown;
mod wrong;

ghost use Rattle.std.specs.Prelude.{◌≡◌};
ghost use Rattle.console.specs.Counts.{IsPrefixLen};
ghost use Rattle.console.specs.Line.{line_number};

use crate::shown::{Byte, Line};
use crate::wrong::say_fault;
use faults::{Form, fault_at};
use pieces::{fronted, keep};
use std::io::{Read, Stderr};
use stops::{Run, Stop, Stopped};

// What a program reads, by the word for it.
#[derive(Clone, Copy)]
pub enum Text {
    Script,
    Log,
}

// Where a program stands.
#[derive(Clone, Copy)]
pub enum Progress {
    // It goes on with its run, and so many bytes of its piece are the text's.
    On(Run, usize),
    // The run is over, so that how it ended is to be told.
    Over(Run),
    // Nothing is left to be told.
    Ended,
}

// Before the first line.
pub fn begun() -> Progress {
    Progress::On(stops::beginning(), 0)
}

// A program's turns on a text: each works the piece, and then reads on, goes on, or is the last, in which the end is told. `work`
// answers nothing where it told at once why there is no more to do. A text of which every line is worked has at most 1,000,001
// lines of so many bytes as the longest, so the turns are never used up.
pub fn every_turn<W, T>(rt: HostRuntime, text: Text, input: &mut [u8], mut work: W, mut tell: T)
where
    W: FnMut(Run, &[u8], usize) -> Option<Stopped>,
    T: FnMut(Run, Stop, &[u8]),
    requires works { W.IsAlwaysCallable work }
    requires tells { T.IsAlwaysCallable tell }
{
    let mut now = begun();
    for _ in 0..u64::MAX {
        let Progress::On(run, have) = now else {
            return;
        };
        now = Progress::Ended;
        if let Some(s) = work(run, input, have) {
            now = follow(rt, s.run, have, s.why, text, input);
            if let Progress::Over(run) = now {
                let n = within(have, input);
                tell(run, s.why, &input[..n]);
            }
        }
    }
}

// What follows from why a call stopped: where the piece is used up more is read, for want of room the program goes
// on, and else the run is over.
pub fn follow(
    rt: HostRuntime,
    run: Run,
    have: usize,
    why: Stop,
    text: Text,
    input: &mut [u8],
) -> Progress {
    match why {
        Stop::Finished | Stop::Unfinished => read_on(rt, run, have, text, input),
        Stop::NoRoom => Progress::On(run, have),
        Stop::Unsound | Stop::BadHeader | Stop::Malformed | Stop::TooMany => Progress::Over(run),
    }
}

// What is left of the piece moves to its front, and more of the text is read after it.
fn read_on(rt: HostRuntime, run: Run, have: usize, text: Text, input: &mut [u8]) -> Progress {
    let rest = keep(input, run.place, have);
    let from = within(rest, input);
    match rt.stdin().read(&mut input[from..]) {
        Ok(0) => Progress::Over(fronted(run)),
        Ok(n) => Progress::On(fronted(run), from + n),
        Err(_) => {
            let _ = rt.eprintln(format_args!("{} cannot be read", word(text)));
            Progress::Ended
        }
    }
}

// How many bytes of a piece: no more than it has.
pub fn within(n: usize, piece: &[u8]) -> usize
    ensures { IsPrefixLen result piece.now }
{
    n.min(piece.len())
}

// The number of the text's line at which the run stands: after the header, and a line for each step.
pub fn line_number(run: Run) -> u64
    ensures { result ≡ line_number run }
{
    let steps = u64::from(run.steps);
    if run.headed { steps + 2 } else { 1 }
}

// The text's line at which the run stands, and what is wrong with it; the piece has the line's bytes.
pub fn explain(err: Stderr, run: Run, why: Stop, text: Text, piece: &[u8]) {
    say_line(err, run);
    let at = run.place;
    let _ = match why {
        Stop::Finished => err.println("finished"),
        Stop::Unsound => err.println("the table is not sound (16)"),
        Stop::BadHeader => return refused(err, "header", Form::Header, piece, at, 20),
        Stop::Malformed => return malformed(err, text, piece, at),
        Stop::Unfinished => println!(err; "{} ends before the line does (22)", word(text)),
        Stop::NoRoom => err.println("no room for the answer (23)"),
        Stop::TooMany => err.println("a line after 1000000 steps (24)"),
    };
}

pub fn say_line(err: Stderr, run: Run) {
    let _ = print!(err; "line {}: ", line_number(run));
}

fn malformed(err: Stderr, text: Text, piece: &[u8], at: usize) {
    match text {
        Text::Script => refused(err, "step line", Form::Script, piece, at, 21),
        Text::Log => refused(err, "log line", Form::Log, piece, at, 21),
    }
}

// What is wrong with the line at a place, and the line. One that is refused has a fault.
fn refused(err: Stderr, what: &str, form: Form, piece: &[u8], at: usize, number: u16) {
    let line = piece.get(at..).unwrap_or(b"");
    let letter = Byte(line.first().copied().unwrap_or(0));
    let _ = print!(err; "not a {what}: ");
    if let Err(f) = fault_at(form, piece, at) {
        say_fault(err, f, form, letter);
    }
    let _ = println!(err; ": {} ({number})", Line(line));
}

fn word(text: Text) -> &'static str {
    match text {
        Text::Script => "the script",
        Text::Log => "the log",
    }
}

pub fn say_unwritten(err: Stderr) {
    let _ = err.println("the output cannot be written");
}
