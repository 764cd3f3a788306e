// Which steps are allowed: the refusals 10 to 15, in their order. They are judged by the counts and by the
// core that the step names, and R and C also by whether a live ticket is stretched.
ghost use Rattle.std.specs.Prelude.{◌≡◌};
ghost use Rattle.refusals.specs.Verdict.{Allowed};
ghost use Rattle.refusals.specs.Judge.{unless, no_core, no_unit, wrong_class, may_request, may_nest, may_interrupt, may_come_back, in_state, judge};

use parts::{
    Answer, Core, Counts, State, Step, holds, holds_one, is_away, is_dropped, is_idle, waits,
};
use ticket::{CoreNo, UnitNo};

// A step is allowed, or refused with an answer.
pub type Verdict = Result<(), Answer>;

// Refused with an answer if the condition holds, and else allowed.
fn unless(due: bool, a: Answer) -> Verdict
    ensures { result ≡ unless due a Allowed }
{
    if due { Err(a) } else { Ok(()) }
}

// 10: the core is not in the table.
fn no_core(counts: Counts, k: CoreNo) -> bool
    ensures { result ≡ no_core counts k }
{
    k.0 >= counts.cores
}

// 11: the unit is not in the table.
fn no_unit(counts: Counts, u: UnitNo) -> bool
    ensures { result ≡ no_unit counts u }
{
    let all = counts.first as u32 + counts.second as u32;
    u.0 as u32 >= all
}

// 13: the unit is first-class, or the held one is second-class.
fn wrong_class(counts: Counts, held: UnitNo, u: UnitNo) -> bool
    ensures { result ≡ wrong_class counts held u }
{
    (u.0 < counts.first) | (held.0 >= counts.first)
}

fn may_request(counts: Counts, late: bool, k: CoreNo, s: State, u: UnitNo) -> Verdict
    ensures { result ≡ may_request counts late k s u }
{
    unless(no_core(counts, k), Answer::NoCore)?;
    unless(no_unit(counts, u), Answer::NoUnit)?;
    unless(!is_idle(s), Answer::WrongState)?;
    unless(late, Answer::Stretched)
}

fn may_nest(counts: Counts, k: CoreNo, s: State, held: UnitNo, u: UnitNo) -> Verdict
    ensures { result ≡ may_nest counts k s held u }
{
    unless(no_core(counts, k), Answer::NoCore)?;
    unless(no_unit(counts, u), Answer::NoUnit)?;
    unless(!holds_one(s), Answer::WrongState)?;
    unless(wrong_class(counts, held, u), Answer::WrongClass)
}

fn may_interrupt(counts: Counts, k: CoreNo, s: State) -> Verdict
    ensures { result ≡ may_interrupt counts k s }
{
    unless(no_core(counts, k), Answer::NoCore)?;
    unless(holds(s), Answer::Masked)?;
    unless(!waits(s), Answer::WrongState)
}

// P and L: whether the core's state is the right one.
fn in_state(counts: Counts, k: CoreNo, right: bool) -> Verdict
    ensures { result ≡ in_state counts k right }
{
    unless(no_core(counts, k), Answer::NoCore)?;
    unless(!right, Answer::WrongState)
}

// A dropped core takes a new ticket when it comes back, as a request does.
fn may_come_back(counts: Counts, late: bool, k: CoreNo, s: State) -> Verdict
    ensures { result ≡ may_come_back counts late k s }
{
    unless(no_core(counts, k), Answer::NoCore)?;
    unless(!is_away(s), Answer::WrongState)?;
    unless(is_dropped(s) & late, Answer::Stretched)
}

// Seam: whether a step is allowed, of which c is the core that it names; `late` is the answer to 15's question.
pub fn judge(s: Step, counts: Counts, late: bool, c: Core) -> Verdict
    ensures { result ≡ judge s counts late c }
{
    let z = c.state;
    let held = c.first;
    match s {
        Step::R(k, u) => may_request(counts, late, k, z, u),
        Step::N(k, u) => may_nest(counts, k, z, held, u),
        Step::P(k) => in_state(counts, k, waits(z)),
        Step::I(k) => may_interrupt(counts, k, z),
        Step::C(k) => may_come_back(counts, late, k, z),
        Step::L(k) => in_state(counts, k, holds(z)),
    }
}
