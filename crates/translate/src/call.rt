// One call: lines are read, worked and answered until one stops the run, which then stands at its start.
ghost use Rattle.std.specs.Prelude.{◌≡◌, true, false, ◌+◌, ◌≤◌, leb, length};
ghost use Rattle.block.specs.Sound.{sound};
ghost use Rattle.digits.specs.Text.{Puts};
ghost use Rattle.expected.specs.Expected.{expected_bytes};
ghost use Rattle.calls.specs.Call.{call, stopped, output};

use calls::fresh_run;
use digits::Unwritten;
use plan::Plan;
use stops::{Run, Stop, Stopped, due};

// Whether the line of a planned step fits.
fn line_fits(len: usize, at: usize, number: u32, x: &Plan) -> bool
    ensures { result ≡ leb (at + length (expected_bytes number x.now.answer x.now.ticket x.now.grants)) len }
{
    expected::expected_fits(len, at, number, x.answer, x.ticket, x.grants)
}

// The line of a planned step, where there is room.
fn put_line(out: &mut [u8], at: usize, number: u32, x: &Plan) -> usize
    requires { at + length (expected_bytes number x.now.answer x.now.ticket x.now.grants) ≤ length out.old }
    ensures { Puts out.old out.new at result (expected_bytes number x.now.answer x.now.ticket x.now.grants) }
{
    expected::put_expected(out, at, number, x.answer, x.ticket, x.grants)
}

// The step lines from where the run stands, on a table of which it is known whether it is sound.
fn step_lines(run: Run, fit: bool, script: &[u8], out: &mut [u8]) -> Stopped
    requires { (run.headed ≡ true) × (fit ≡ sound run.table) }
    ensures { (result ≡ stopped (call run script.now out.old)) × (out.new ≡ output (call run script.now out.old)) }
{
    let mut at = run;
    loop {
        match due(script, at.place, at.steps, fit) {
            Err(why) => return Stopped { run: at, why },
            Ok((s, next)) => {
                let q = at.table.planned(s);
                if !line_fits(out.len(), at.wrote, at.steps + 1, &q.plan) {
                    return Stopped {
                        run: at,
                        why: Stop::NoRoom,
                    };
                }
                at.table.put_back(&q);
                at.steps += 1;
                at.place = next;
                at.wrote = put_line(out, at.wrote, at.steps, &q.plan);
            }
        }
    }
}

// The header's line, and the step lines after it.
fn from_header(run: Run, script: &[u8], out: &mut [u8]) -> Stopped
    requires { run.headed ≡ false }
    ensures { (result ≡ stopped (call run script.now out.old)) × (out.new ≡ output (call run script.now out.old)) }
{
    match script::read_header(script, run.place) {
        Ok((counts, counter, next)) => {
            match writing::write_opening(out, run.wrote, counts, counter) {
                Ok(w) => {
                    let opened = fresh_run(next, w, counts, counter, run.steps);
                    step_lines(opened, true, script, out)
                }
                Err(Unwritten::OutOfRange) => Stopped {
                    run,
                    why: Stop::BadHeader,
                },
                Err(Unwritten::NoRoom) => Stopped {
                    run,
                    why: Stop::NoRoom,
                },
            }
        }
        Err(bad) => Stopped {
            run,
            why: Stop::from(bad),
        },
    }
}

// The lines of a script from where the run stands, each answered whole in the output.
pub fn translate(run: Run, script: &[u8], out: &mut [u8]) -> Stopped
    ensures { (result ≡ stopped (call run script.now out.old)) × (out.new ≡ output (call run script.now out.old)) }
{
    if run.headed {
        step_lines(run, run.table.sound(), script, out)
    } else {
        from_header(run, script, out)
    }
}
