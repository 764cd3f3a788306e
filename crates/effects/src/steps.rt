// The effects of the six steps, by what they read of the table.
ghost use Rattle.std.specs.Prelude.{◌≡◌};
ghost use Rattle.effects.specs.Effect.{request, nest, call_off, counts_dropped, marked_away, dequeue, interrupt, enter_again, go_on, come_back, release, served, heritable, heir, hold, inherit, wait, poll, step_effect};

use crate::kinds::{Effect, Move};
use parts::{
    Answer, Core, Profile, State, Step, core, dropped, idle, is_dropped, is_marked, two_stage,
};
use settling::Best;
use ticket::{Comparison, Ticket, UnitNo, compare, take};

// R: takes the counter as ticket, enters the unit, waits.
fn request(u: UnitNo, counter: Ticket) -> Effect
    ensures { result ≡ request u counter }
{
    let issued = take(counter);
    let n = issued.ticket;
    Effect {
        core: core(n, n, u, UnitNo(0), State::Waiting),
        counter: issued.unit.counter,
        ticket: n,
        does: Move::Enter(u, n),
        answer: Answer::Done,
    }
}

// N: enters a second-class unit with its own ticket, waits.
fn nest(u: UnitNo, counter: Ticket, c: Core) -> Effect
    ensures { result ≡ nest u counter c }
{
    Effect {
        core: core(c.own, c.own, c.first, u, State::WaitingSecond),
        counter,
        ticket: c.own,
        does: Move::Enter(u, c.own),
        answer: Answer::Done,
    }
}

// I in T: gives up every register, carried ticket becomes the own one, away.
fn call_off(counter: Ticket, c: Core) -> Effect
    ensures { result ≡ call_off counter c }
{
    Effect {
        core: core(c.own, c.own, c.first, UnitNo(0), State::Away),
        counter,
        ticket: c.own,
        does: Move::GiveUp,
        answer: Answer::Done,
    }
}

// I in D, flag set: gives the unit up and counts as dropped; reports the ticket that just ended.
fn counts_dropped(counter: Ticket, c: Core) -> Effect
    ensures { result ≡ counts_dropped counter c }
{
    Effect {
        core: dropped(c),
        counter,
        ticket: c.own,
        does: Move::GiveUp,
        answer: Answer::Done,
    }
}

// I in D, flag clear: stays registered, marked away.
fn marked_away(counter: Ticket, c: Core) -> Effect
    ensures { result ≡ marked_away counter c }
{
    Effect {
        core: core(c.own, c.own, c.first, UnitNo(0), State::Marked),
        counter,
        ticket: c.own,
        does: Move::Stay,
        answer: Answer::Done,
    }
}

// I in D.
fn dequeue(counter: Ticket, c: Core, flag: bool) -> Effect
    ensures { result ≡ dequeue counter c flag }
{
    if flag {
        counts_dropped(counter, c)
    } else {
        marked_away(counter, c)
    }
}

// I: the profile decides.
fn interrupt(p: Profile, counter: Ticket, c: Core, flag: bool) -> Effect
    ensures { result ≡ interrupt p counter c flag }
{
    match p {
        Profile::T => call_off(counter, c),
        Profile::D => dequeue(counter, c, flag),
    }
}

// C: enters its first unit again with its own ticket, waits.
fn enter_again(counter: Ticket, c: Core) -> Effect
    ensures { result ≡ enter_again counter c }
{
    Effect {
        core: core(c.own, c.own, c.first, UnitNo(0), State::Waiting),
        counter,
        ticket: c.own,
        does: Move::Enter(c.first, c.own),
        answer: Answer::Done,
    }
}

// C of a core still registered: goes on waiting, in its place.
fn go_on(counter: Ticket, c: Core) -> Effect
    ensures { result ≡ go_on counter c }
{
    Effect {
        core: core(c.own, c.own, c.first, UnitNo(0), State::Waiting),
        counter,
        ticket: c.own,
        does: Move::Stay,
        answer: Answer::Done,
    }
}

// C: a dropped core takes a new ticket and joins its unit again.
fn come_back(counter: Ticket, c: Core) -> Effect
    ensures { result ≡ come_back counter c }
{
    if is_dropped(c.state) {
        request(c.first, counter)
    } else if is_marked(c.state) {
        go_on(counter, c)
    } else {
        enter_again(counter, c)
    }
}

// L: gives up every register, ticket ends, idle.
fn release(counter: Ticket, c: Core) -> Effect
    ensures { result ≡ release counter c }
{
    Effect {
        core: idle(),
        counter,
        ticket: c.own,
        does: Move::GiveUp,
        answer: Answer::Done,
    }
}

// The state after a poll that found the flag set.
fn served(s: State) -> State
    ensures { result ≡ served s }
{
    match s {
        State::Waiting => State::Holding,
        State::WaitingSecond => State::HoldingBoth,
        _ => s,
    }
}

// Whether the best ticket in line, which compares so with the own one, is carried: where it is older. A younger one is not; the own ticket
// is then carried, whatever was before. Same and Opposite are not met in a sound table, whose own tickets differ and lie in one half of
// the circle: either is the ticket to carry, and it would be carried.
fn heritable(x: Comparison) -> bool
    ensures { result ≡ heritable x }
{
    matches!(x, Comparison::Older | Comparison::Opposite)
}

// The older of a core's own ticket and the one next in line.
fn heir(own: Ticket, best: Best) -> Ticket
    ensures { result ≡ heir own best }
{
    match best {
        Some((_, m)) if heritable(compare(m, own)) => m,
        _ => own,
    }
}

// Flag set: now holds it.
fn hold(counter: Ticket, c: Core) -> Effect
    ensures { result ≡ hold counter c }
{
    Effect {
        core: Core {
            state: served(c.state),
            ..c
        },
        counter,
        ticket: c.carried,
        does: Move::Stay,
        answer: Answer::Granted,
    }
}

// Flag clear at the second stage: it carries the ticket n from now on, and shows it at its second unit.
fn inherit(counter: Ticket, c: Core, n: Ticket) -> Effect
    ensures { result ≡ inherit counter c n }
{
    Effect {
        core: Core { carried: n, ..c },
        counter,
        ticket: n,
        does: Move::Carry(n),
        answer: Answer::NotYet,
    }
}

// Flag clear at the first stage.
fn wait(counter: Ticket, c: Core) -> Effect
    ensures { result ≡ wait counter c }
{
    Effect {
        core: c,
        counter,
        ticket: c.carried,
        does: Move::Stay,
        answer: Answer::NotYet,
    }
}

// P: the core waits for a flag; b is next in line at its first unit.
fn poll(counter: Ticket, c: Core, flag: bool, b: Best) -> Effect
    ensures { result ≡ poll counter c flag b }
{
    if flag {
        hold(counter, c)
    } else if two_stage(c.state) {
        inherit(counter, c, heir(c.own, b))
    } else {
        wait(counter, c)
    }
}

// Seam: the effect of a step of the core c in a table of this profile: whether the flag that it waits for is set, and
// who is next in line at its first unit, is what a poll reads; an interrupt in D reads the flag too.
pub fn step_effect(p: Profile, s: Step, counter: Ticket, c: Core, flag: bool, b: Best) -> Effect
    ensures { result ≡ step_effect p s counter c flag b }
{
    match s {
        Step::R(_, u) => request(u, counter),
        Step::N(_, u) => nest(u, counter, c),
        Step::P(_) => poll(counter, c, flag, b),
        Step::I(_) => interrupt(p, counter, c, flag),
        Step::C(_) => come_back(counter, c),
        Step::L(_) => release(counter, c),
    }
}
