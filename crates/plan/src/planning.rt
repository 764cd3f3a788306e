// The plan of a step: it is judged, and an allowed one has its effect on the core and on the units that it
// touches, which settle. Of a unit it reads the core's register and what the unit shows.
ghost use Rattle.std.specs.Prelude.{◌≡◌, true, false};
ghost use Rattle.settling.specs.Settle.{enter, leave};
ghost use Rattle.plan.specs.Plan.{part, staying, refuse, with_changes, entered, leaves, given_up, carry_out, effect_of, plan_step};

use crate::grants::{one_grant, two_grants};
use effects::{Effect, Move, step_effect};
use parts::{Answer, Core, Counts, Grants, Next, Register, Step, two_stage};
use places::core_place;
use refusals::judge;
use settling::{Change, carry, enter, leave, stay, stored};
use ticket::{CoreNo, Ticket, UnitNo};

// What a step reads of a unit at one of its places: the register of its core, and what the unit shows.
#[derive(Clone, Copy, Debug, PartialEq, Eq)]
pub struct Part {
    pub register: Register,
    pub next: Next,
}

impl Part {
    // Seam: of a unit that shows `next`, where the core's register is `register`.
    pub fn of(register: Register, next: Next) -> Self
        ensures { result ≡ part register next }
    {
        Part { register, next }
    }
}

// What becomes of the units at a step's places, of the core and of the counter; and what the tester must see. Where both
// places are the same, the second stays as it is. A step that does not move leaves both.
#[derive(Clone, Copy, Debug, PartialEq, Eq)]
pub struct Plan {
    pub first: Change,
    pub second: Change,
    pub core: Core,
    pub counter: Ticket,
    pub ticket: Ticket,
    pub grants: Grants,
    pub answer: Answer,
    pub moves: bool,
}

// A unit that stays as it was read.
fn staying(x: Part) -> Change
    ensures { result ≡ staying x }
{
    stay(x.register, x.next)
}

// A refused step hands back what it read.
fn refuse(a: Answer, counter: Ticket, c: Core, x: Part, y: Part) -> Plan
    ensures { result ≡ refuse a counter c x y }
{
    Plan {
        first: staying(x),
        second: staying(y),
        core: c,
        counter,
        ticket: Ticket(0),
        grants: Grants::None,
        answer: a,
        moves: false,
    }
}

// The effect with what became of the units.
fn with_changes(e: Effect, first: Change, second: Change, grants: Grants, moves: bool) -> Plan
    ensures { result ≡ with_changes e first second grants moves }
{
    Plan {
        first,
        second,
        core: e.core,
        counter: e.counter,
        ticket: e.ticket,
        grants,
        answer: e.answer,
        moves,
    }
}

// Core k enters unit u, of which x is read, with the ticket t.
fn entered(e: Effect, k: CoreNo, u: UnitNo, t: Ticket, x: Part, y: Part) -> Plan
    ensures { result ≡ entered e k u t x y }
{
    let a = enter(x.next, k, t);
    with_changes(e, a, staying(y), one_grant(u, a.winner), true)
}

// Core k gives up its register at a unit of which x is read.
fn leaves(x: Part, k: CoreNo) -> Change
    ensures { result ≡ leaves x k }
{
    leave(x.register, x.next, k)
}

// Core k, which is c, gives up its registers at its units.
fn given_up(e: Effect, k: CoreNo, c: Core, x: Part, y: Part) -> Plan
    ensures { result ≡ given_up e k c x y }
{
    let a = leaves(x, k);
    if two_stage(c.state) {
        let b = leaves(y, k);
        let grants = two_grants(c.first, a.winner, c.second, b.winner);
        with_changes(e, a, b, grants, true)
    } else {
        with_changes(e, a, staying(y), one_grant(c.first, a.winner), true)
    }
}

// The effect of a step of core k, which is c, on the units at its places.
fn carry_out(e: Effect, k: CoreNo, c: Core, x: Part, y: Part) -> Plan
    ensures { result ≡ carry_out e k c x y }
{
    match e.does {
        Move::Stay => with_changes(e, staying(x), staying(y), Grants::None, false),
        Move::Enter(u, t) => entered(e, k, u, t, x, y),
        Move::Carry(t) => with_changes(e, staying(x), carry(y.next, k, t), Grants::None, true),
        Move::GiveUp => given_up(e, k, c, x, y),
    }
}

// The effect of an allowed step of the core c, which reads x and y of the units at its places.
fn effect_of(s: Step, counts: Counts, counter: Ticket, c: Core, x: Part, y: Part) -> Effect
    ensures { result ≡ effect_of s counts counter c x y }
{
    let flag = y.register.flag;
    step_effect(counts.profile, s, counter, c, flag, stored(x.next))
}

// Seam: the plan of a step that names core c and reads x and y of the units at its places.
#[tactic(auto, unfolding(crate::specs::Plan::plan_step))]
pub fn plan_step(
    s: Step,
    counts: Counts,
    counter: Ticket,
    late: bool,
    c: Core,
    x: Part,
    y: Part,
) -> Plan
    ensures { result ≡ plan_step s counts counter late c x y }
{
    match judge(s, counts, late, c) {
        Err(a) => refuse(a, counter, c, x, y),
        Ok(()) => {
            let e = effect_of(s, counts, counter, c, x, y);
            carry_out(e, core_place(s), c, x, y)
        }
    }
}
