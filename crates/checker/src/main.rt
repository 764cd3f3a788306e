// The checker program: a captured log on standard input; on standard output that it is accepted, or the number that
// stopped it with the log's line, and for 40 the field that is off. What is wrong is said on standard error.
//
// It holds one piece of the log.
#![tactic(auto)]

mod off;

use crate::off::disagree;
use console::{Text, every_turn, explain, line_number, say_unwritten, within};
use logs::{LogStop, check, log_number};
use stops::{Run, Stop, Stopped, stop_number};

fn main(rt: HostRuntime) {
    let mut input = [0; 65536];
    every_turn(
        rt,
        Text::Log,
        &mut input,
        |run, piece, have| checked(rt, run, &piece[..within(have, piece)]),
        |run, why, piece| last(rt, run, why, piece),
    );
}

// One call, whose disagreement is told at once.
fn checked(rt: HostRuntime, run: Run, piece: &[u8]) -> Option<Stopped> {
    let c = check(run, piece);
    match c.why {
        LogStop::Plain(why) => Some(Stopped { run: c.run, why }),
        LogStop::Disagrees(o) => {
            disagree(rt, c.run, log_number(c.why), o);
            None
        }
    }
}

// Accepted; or the number and the line at which the run stands, and what is wrong with it.
fn last(rt: HostRuntime, run: Run, why: Stop, piece: &[u8]) {
    let n = stop_number(why);
    let told = if n == 0 {
        println!(rt; "accepted, {} steps", run.steps)
    } else {
        println!(rt; "{n}\t{}", line_number(run))
    };
    if told.is_err() {
        say_unwritten(rt.stderr());
    } else if n != 0 {
        explain(rt.stderr(), run, why, Text::Log, piece);
    }
}
