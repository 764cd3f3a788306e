// The translator program: a script on standard input, the expected answers on standard output.
//
// It holds one piece of the script and one of the answers. Stopped by the script, it writes the line X
// with the number; what stopped it is said on standard error, with the script's line.
#![tactic(auto)]

use console::{Text, every_turn, explain, say_unwritten, within};
use pieces::work;
use stops::{Run, Stop, Stopped, stop_number};

fn main(rt: HostRuntime) {
    let mut input = [0; 65536];
    let mut output = [0; 65536];
    every_turn(
        rt,
        Text::Script,
        &mut input,
        |run, piece, have| worked(rt, run, piece, have, &mut output),
        |run, why, piece| last(rt, run, why, piece),
    );
}

// One call, whose answers go to standard output, if they can.
fn worked(
    rt: HostRuntime,
    run: Run,
    piece: &[u8],
    have: usize,
    output: &mut [u8],
) -> Option<Stopped> {
    let s = work(run, piece, have, output);
    let n = within(s.run.wrote, output);
    if rt.write_all(&output[..n]).is_err() {
        say_unwritten(rt.stderr());
        return None;
    }
    Some(s)
}

// Stopped by the script: the last line of the output, and what is wrong with the script's line.
fn last(rt: HostRuntime, run: Run, why: Stop, piece: &[u8]) {
    let n = stop_number(why);
    if n == 0 {
        return;
    }
    if println!(rt; "X\t{n}").is_ok() {
        explain(rt.stderr(), run, why, Text::Script, piece);
    } else {
        say_unwritten(rt.stderr());
    }
}
