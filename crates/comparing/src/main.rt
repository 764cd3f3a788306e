// The comparing program: two tickets on standard input, as a line of two numbers; what the first is, seen from
// the second, on standard output. Anything else is told on standard error, and nothing is written.
#![tactic(auto)]

mod pair;

use pair::compared;

fn main(rt: HostRuntime) {
    let mut buf = [0; 4096];
    let n = input::fill(&mut rt.stdin(), &mut buf);
    answer(rt, &buf[..n]);
}

fn answer(rt: HostRuntime, s: &[u8]) {
    match compared(s) {
        None => say(rt, "not two numbers from 0 to 65535"),
        Some(x) => {
            if rt.println(x).is_err() {
                say(rt, "the output cannot be written");
            }
        }
    }
}

// A line on standard error.
fn say(rt: HostRuntime, text: &str) {
    let _ = rt.eprintln(text);
}
