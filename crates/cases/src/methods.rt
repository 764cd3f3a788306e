// A step by a method of the table, and the table that it hands back.
use crate::bytes::{byte, half, letter};
use crate::next::put_next;
use crate::register::put_register;
use crate::table::{TABLE_SIZE, table};
use crate::text::Answers;
use block::{Stepped, Table};
use parts::{Core, Grants, LockUnit, State};
use ticket::{CoreNo, Grant, UnitNo};

pub(crate) fn answer(s: &[u8], a: &mut Answers<'_>) {
    let x = stepped(
        table(s),
        byte(s, TABLE_SIZE),
        CoreNo(half(s, TABLE_SIZE + 1)),
        UnitNo(half(s, TABLE_SIZE + 3)),
    );
    a.head(letter(s), parts::number(x.answer));
    a.field(x.ticket.0);
    put_grants(a, x.grants);
    put_table(a, x.table);
}

// The method of a letter's number: each by its name, and not as `Table::step`, so that each is run.
fn stepped(t: Table, letter: u8, k: CoreNo, u: UnitNo) -> Stepped {
    match letter {
        0 => t.request(k, u),
        1 => t.nest(k, u),
        2 => t.poll(k),
        3 => t.interrupt(k),
        4 => t.come_back(k),
        _ => t.release(k),
    }
}

// How many grants there are, and each.
fn put_grants(a: &mut Answers<'_>, gs: Grants) {
    match gs {
        Grants::None => a.field(0u8),
        Grants::One(g) => {
            a.field(1u8);
            put_grant(a, g);
        }
        Grants::Two(g, h) => {
            a.field(2u8);
            put_grant(a, g);
            put_grant(a, h);
        }
    }
}

fn put_grant(a: &mut Answers<'_>, g: Grant) {
    a.field(g.unit.0);
    a.field(g.core.0);
}

fn put_table(a: &mut Answers<'_>, t: Table) {
    a.field(t.counts.cores);
    a.field(t.counts.first);
    a.field(t.counts.second);
    a.field(t.counter.0);
    for c in t.cores {
        put_core(a, c);
    }
    put_units(a, &t.units);
}

fn put_core(a: &mut Answers<'_>, c: Core) {
    a.field(c.own.0);
    a.field(c.carried.0);
    a.field(c.first.0);
    a.field(c.second.0);
    a.field(state_number(c.state));
}

// A state's number in a case.
fn state_number(s: State) -> u8 {
    match s {
        State::Idle => 0,
        State::Waiting => 1,
        State::Holding => 2,
        State::WaitingSecond => 3,
        State::HoldingBoth => 4,
        State::Away => 5,
        State::Marked => 6,
        State::Dropped => 7,
    }
}

fn put_units(a: &mut Answers<'_>, units: &[LockUnit]) {
    for x in units {
        put_unit(a, x);
    }
}

fn put_unit(a: &mut Answers<'_>, x: &LockUnit) {
    for r in x.registers {
        put_register(a, r);
    }
    put_next(a, x.next);
}
