// One call: lines are read, worked and held to what they show until one stops the run, which then stands at its start.
ghost use Rattle.std.specs.Prelude.{◌≡◌, true, false, ◌+◌, ◌≤◌, ◌<◌, length, drop, IfOk};
ghost use Rattle.block.specs.Sound.{sound};
ghost use Rattle.writing.specs.Claims.{Small};
ghost use Rattle.room.specs.Claims.{Held};
ghost use Rattle.lines.specs.Reading.{ending};
ghost use Rattle.loglines.specs.Log.{log_most, given_by};
ghost use Rattle.loglines.specs.Parts.{part_in, judged_in};
ghost use Rattle.logs.specs.declared.call.LogStop.TheVariants.{Plain};
ghost use Rattle.logs.specs.Due.{line_in, end_found, part_due, plain_due, DueSays, Follows, mismatch_stop, met_by, plain_met, unfit_part, unfit_stop};
ghost use Rattle.logs.specs.Checking.{log_number, check_call, checked};

use calls::fresh_run;
use lines::NoEnd;
use loglines::{Given, Mismatch, Off, all_numbers, begins, held, log_end, quick_part, step_part};
use parts::Step;
use plan::Plan;
use stops::{Run, STEPS_MOST, Stop, stop_number};

// Room for the text of what the rules give for a step, whatever its numbers.
const SHOWN_MOST: usize = 88;

// Why a call stopped: as a translation does, never for want of room; or 40, the line disagrees.
#[derive(Clone, Copy, Debug, PartialEq, Eq)]
pub enum LogStop {
    Plain(Stop),
    Disagrees(Off),
}

impl From<Stop> for LogStop {
    ghost from_gives = { λ s r. r ≡ Plain s };

    fn from(s: Stop) -> LogStop {
        LogStop::Plain(s)
    }
}

// A number that is none is 21.
impl From<Mismatch> for LogStop {
    ghost from_gives = { λ m r. r ≡ mismatch_stop m };

    fn from(m: Mismatch) -> LogStop {
        match m {
            Mismatch::Malformed => LogStop::Plain(Stop::Malformed),
            Mismatch::Disagrees(o) => LogStop::Disagrees(o),
        }
    }
}

// Its number.
pub fn log_number(why: LogStop) -> u16
    ensures { result ≡ log_number why }
{
    match why {
        LogStop::Plain(s) => stop_number(s),
        LogStop::Disagrees(_) => 40,
    }
}

#[derive(Clone, Copy)]
pub struct Checked {
    pub run: Run,
    pub why: LogStop,
}

// What the rules give for a planned step.
fn given_by(p: Plan) -> Given
    ensures { result ≡ record { answer = p.answer; ticket = p.ticket; grants = p.grants } }
{
    Given {
        answer: p.answer,
        ticket: p.ticket,
        grants: p.grants,
    }
}

// What is behind the step part of a line that was read in full: how many numbers the step has, the place in the line of the field
// behind them, if there is one, and the place of the line's end.
#[derive(Clone, Copy)]
pub(crate) struct Rest {
    numbers: u32,
    from: Option<usize>,
    end: usize,
}

// Where the numbers behind a step part stand: from the tab at a place, if the part was read quickly; else as it was read in full.
#[derive(Clone, Copy)]
pub(crate) enum Behind {
    Quick(usize),
    Full(Rest),
}

// What is due at a place: a step, and where its numbers stand; or why the run stops.
type Due = Result<(Step, Behind), Stop>;

// The same, where the line is read in full.
type PlainDue = Result<(Step, Rest), Stop>;

// Finished, 24, 22, and 21 where there is no step part.
fn line_due(log: &[u8], place: usize, steps: u32) -> Due
    ensures { DueSays log.now place steps result }
{
    if log.len() <= place {
        return Err(Stop::Finished);
    }
    if STEPS_MOST <= steps {
        return Err(Stop::TooMany);
    }
    if let Some((s, from)) = quick_part(log, place) {
        return Ok((s, Behind::Quick(from)));
    }
    let (s, rest) = plain_due(log, place)?;
    Ok((s, Behind::Full(rest)))
}

// The end of the line at a place: 21 where none is within the longest line, 22 where it is still to come.
fn end_of(log: &[u8], place: usize) -> Result<usize, Stop>
    ensures value { result ≡ end_found (ending log_most place (drop place log.now)) }
    ensures within { IfOk result (λ e. (place ≤ e) × (e < length log.now)) }
{
    match log_end(log, place) {
        Ok(e) => Ok(e),
        Err(NoEnd::TooLong) => Err(Stop::Malformed),
        Err(NoEnd::CutOff) => Err(Stop::Unfinished),
    }
}

fn plain_due(log: &[u8], place: usize) -> PlainDue
    ensures { result ≡ plain_due log.now place }
{
    let e = end_of(log, place)?;
    part_due(&log[place..e], e)
}

fn part_due(line: &[u8], end: usize) -> PlainDue
    ensures { result ≡ part_due (part_in line.now) end }
{
    let (s, numbers, from) = step_part(line).ok_or(Stop::Malformed)?;
    Ok((s, Rest { numbers, from, end }))
}

// What a line comes to: it agrees, and the next one starts there; or why the run stops.
type Met = Result<usize, LogStop>;

// The numbers of a line, behind its step part.
fn line_met(log: &[u8], place: usize, rest: Rest, p: Given) -> Met
    requires { (rest.numbers ≤ 2) × (place ≤ rest.end) × (rest.end < length log.now) }
    ensures { result ≡ met_by (judged_in (line_in log.now place rest.end) rest.numbers rest.from (given_by p.answer p.ticket p.grants)) rest.end }
{
    held(&log[place..rest.end], rest.numbers, rest.from, p)?;
    Ok(rest.end + 1)
}

// The line at a place, read in full.
fn plain_met(log: &[u8], place: usize, p: Given) -> Met
    ensures { result ≡ plain_met log.now place (given_by p.answer p.ticket p.grants) }
{
    let (_, rest) = plain_due(log, place)?;
    line_met(log, place, rest, p)
}

// A line whose step was planned: the numbers behind it are held to what the rules give, by their text if the step was read quickly.
fn line_meets(log: &[u8], place: usize, b: Behind, p: Given, space: &mut [u8; SHOWN_MOST]) -> Met
    requires { Follows log.now place b × Small (given_by p.answer p.ticket p.grants) }
    ensures { result ≡ plain_met log.now place (given_by p.answer p.ticket p.grants) }
{
    match b {
        Behind::Full(rest) => line_met(log, place, rest, p),
        Behind::Quick(from) => {
            let n = expected::put_shown(space, 0, p.answer, p.ticket, p.grants);
            if begins(&log[from..], space, n) {
                Ok(from + n)
            } else {
                plain_met(log, place, p)
            }
        }
    }
}

// A line on a table that is not sound: 21, or 16.
fn unfit(line: &[u8]) -> Stop
    ensures { result ≡ unfit_part line.now (part_in line.now) }
{
    match step_part(line) {
        Some((_, _, from)) if all_numbers(line, from) => Stop::Unsound,
        _ => Stop::Malformed,
    }
}

// Why a run on such a table stops: finished, 24, 22, 21, 16.
fn unfit_stop(log: &[u8], place: usize, steps: u32) -> Stop
    ensures { result ≡ unfit_stop log.now place steps }
{
    if log.len() <= place {
        return Stop::Finished;
    }
    if STEPS_MOST <= steps {
        return Stop::TooMany;
    }
    match end_of(log, place) {
        Ok(e) => unfit(&log[place..e]),
        Err(why) => why,
    }
}

fn at_unfit(run: Run, log: &[u8]) -> Checked
    requires { (run.headed ≡ true) × (sound run.table ≡ false) }
    ensures { result ≡ checked run (check_call run log.now) }
{
    let why = unfit_stop(log, run.place, run.steps);
    Checked {
        run,
        why: LogStop::Plain(why),
    }
}

// The lines from where the run stands, on a sound table.
fn log_lines(run: Run, log: &[u8]) -> Checked
    requires { (run.headed ≡ true) × (sound run.table ≡ true) × Held run.table }
    ensures { result ≡ checked run (check_call run log.now) }
{
    let mut at = run;
    let mut space = [0; SHOWN_MOST];
    loop {
        match line_due(log, at.place, at.steps) {
            Err(why) => {
                return Checked {
                    run: at,
                    why: LogStop::Plain(why),
                };
            }
            Ok((s, behind)) => {
                let q = at.table.planned(s);
                match line_meets(log, at.place, behind, given_by(q.plan), &mut space) {
                    Err(why) => return Checked { run: at, why },
                    Ok(next) => {
                        at.table.put_back(&q);
                        at.steps += 1;
                        at.place = next;
                    }
                }
            }
        }
    }
}

fn from_header(run: Run, log: &[u8]) -> Checked
    requires { run.headed ≡ false }
    ensures { result ≡ checked run (check_call run log.now) }
{
    match script::read_header(log, run.place) {
        Ok((counts, counter, next)) => {
            let opened = fresh_run(next, run.wrote, counts, counter, run.steps);
            log_lines(opened, log)
        }
        Err(bad) => Checked {
            run,
            why: LogStop::Plain(Stop::from(bad)),
        },
    }
}

// The lines of a log from where the run stands.
pub fn check(run: Run, log: &[u8]) -> Checked
    ensures { result ≡ checked run (check_call run log.now) }
{
    if run.headed {
        if run.table.sound() {
            log_lines(run, log)
        } else {
            at_unfit(run, log)
        }
    } else {
        from_header(run, log)
    }
}
