// A table built, steps made on it, and what they show.
use block::{Stepped, Table};
use parts::{CORES, Counts, Fill, Grants, Profile, Step};
use std::io::Stdout;
use ticket::{CoreNo, Ticket, UnitNo};

// The core past the last that a table can have, and the last two.
pub(crate) const PAST: u16 = CORES as u16;

pub(crate) const LAST: u16 = PAST - 1;

pub(crate) const OTHER: u16 = PAST - 2;

pub(crate) fn counts(profile: Profile, cores: u16, first: u16, second: u16) -> Counts {
    Counts {
        cores,
        first,
        second,
        profile,
        fill: Fill::Blank,
    }
}

pub(crate) fn build(profile: Profile, cores: u16, first: u16, second: u16, counter: u16) -> Table {
    building::build(counts(profile, cores, first, second), Ticket(counter)).table
}

// Writes what building answers to counts: of cores, and of units of the first class and of the second.
pub(crate) fn ranges(out: Stdout, profile: Profile, all: &[(u16, u16, u16)]) {
    for (cores, first, second) in all {
        let b = building::build(counts(profile, *cores, *first, *second), Ticket(0));
        let _ = out.println(parts::number(b.answer));
    }
}

// The table with this counter.
pub(crate) fn counted(t: Table, counter: u16) -> Table {
    Table {
        counter: Ticket(counter),
        ..t
    }
}

pub(crate) fn request(k: u16, u: u16) -> Step {
    Step::R(CoreNo(k), UnitNo(u))
}

pub(crate) fn nest(k: u16, u: u16) -> Step {
    Step::N(CoreNo(k), UnitNo(u))
}

pub(crate) fn poll(k: u16) -> Step {
    Step::P(CoreNo(k))
}

pub(crate) fn interrupt(k: u16) -> Step {
    Step::I(CoreNo(k))
}

pub(crate) fn come_back(k: u16) -> Step {
    Step::C(CoreNo(k))
}

pub(crate) fn release(k: u16) -> Step {
    Step::L(CoreNo(k))
}

// Makes the steps one after the other, writes what each shows, and hands back the last table.
pub(crate) fn run(out: Stdout, t: Table, steps: &[Step]) -> Table {
    let mut t = t;
    for s in steps {
        t = shown(out, t.step(*s));
    }
    t
}

// Makes each step on the same table, and writes what it shows.
pub(crate) fn each(out: Stdout, t: Table, steps: &[Step]) {
    for s in steps {
        shown(out, t.step(*s));
    }
}

// Each letter that asks for no unit, for core k.
pub(crate) fn others(out: Stdout, t: Table, k: u16) {
    each(out, t, &[poll(k), interrupt(k), come_back(k), release(k)]);
}

// Writes what a step shows, and hands back its table.
fn shown(out: Stdout, r: Stepped) -> Table {
    let _ = print!(out; "{}\t{}\t", parts::number(r.answer), r.ticket.0);
    let _ = match r.grants {
        Grants::None => println!(out; "0"),
        Grants::One(a) => println!(out; "1\t{}\t{}", a.unit.0, a.core.0),
        Grants::Two(a, b) => {
            println!(out; "2\t{}\t{}\t{}\t{}", a.unit.0, a.core.0, b.unit.0, b.core.0)
        }
    };
    r.table
}
