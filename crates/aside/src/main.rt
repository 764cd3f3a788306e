// The room program: a script on standard input, the bytes to set aside for its output on standard output.
//
// It translates the script and keeps nothing of the answers: the steps that were worked are the step lines
// that the script has. A script without a good header is told on standard error, and nothing is written.
#![tactic(auto)]

use console::{Text, every_turn, explain, say_unwritten};
use pieces::work;
use room::room_for;
use stops::{Run, Stop};

fn main(rt: HostRuntime) {
    let mut input = [0; 65536];
    let mut output = [0; 65536];
    every_turn(
        rt,
        Text::Script,
        &mut input,
        |run, piece, have| Some(work(run, piece, have, &mut output)),
        |run, why, piece| last(rt, run, why, piece),
    );
}

// The room for the steps that were worked, if the header was good; else what is wrong with it.
fn last(rt: HostRuntime, run: Run, why: Stop, piece: &[u8]) {
    if !run.headed {
        return explain(rt.stderr(), run, why, Text::Script, piece);
    }
    if rt.println(room_for(u64::from(run.steps))).is_err() {
        say_unwritten(rt.stderr());
    }
}
