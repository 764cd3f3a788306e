// Each letter on tables that are not sound.
use crate::dequeueing::{away_before_another, away_in_line, dropped_with_flag};
use crate::steps::{counts, each, nest, others, request};
use crate::two_stage::{begin, unpolled, waiting};
use block::Table;
use parts::{Profile, Register, State, blank, core, next_in_line, showing};
use std::io::Stdout;
use ticket::{CoreNo, Ticket, UnitNo};

// In T: a blank register shows a ticket, and next in line is nobody's ticket, nobody though core 0 waits, and the core that has the flag.
pub(crate) fn two_stage(out: Stdout) {
    refused(out, ticket_in_blank(), 2);
    refused(out, next_in(begin(), 0, 0, true, false), 2);
    refused(out, next_in(waiting(out), 0, 0, false, true), 2);
    refused(out, next_in(unpolled(out), 65534, 0, true, true), 2);
}

// In D: core 2 is next in line with ticket 0, though core 0 is older and away in line; an away core has the flag, or no register; a
// dropped core has a ticket, which it also carries, or is away as in T; and the table has a second-class unit.
pub(crate) fn dequeueing(out: Stdout) {
    refused(out, next_in(away_before_another(out), 0, 2, true, true), 1);
    refused(out, flag_moved(out), 1);
    refused(out, taken_out(out), 1);
    refused(out, ticket_kept(out, State::Dropped), 1);
    refused(out, ticket_kept(out, State::Away), 1);
    refused(out, second_class(), 1);
}

// In T: core 0 is away as in D.
pub(crate) fn away_as_in_d(out: Stdout) {
    refused(out, in_state(begin(), 0, State::Marked), 2);
    refused(out, in_state(begin(), 0, State::Dropped), 2);
}

// Each letter for core 0; it asks for this second unit.
fn refused(out: Stdout, t: Table, second: u16) {
    each(out, t, &[request(0, 0), nest(0, second)]);
    others(out, t, 0);
}

fn ticket_in_blank() -> Table {
    let mut t = begin();
    t.units[0].registers[0] = Register {
        ticket: Ticket(5),
        valid: false,
        flag: false,
    };
    t
}

// The table with another next in line at unit 0.
fn next_in(table: Table, ticket: u16, core: u16, valid: bool, held: bool) -> Table {
    let mut t = table;
    let v = next_in_line(Ticket(ticket), CoreNo(core), valid, held);
    t.units[0] = showing(t.units[0], v);
    t
}

// Core 0, away, has core 1's flag, and core 1 is next in line.
fn flag_moved(out: Stdout) -> Table {
    let mut t = away_in_line(out);
    t.units[0].registers[0] = Register {
        ticket: Ticket(65535),
        valid: true,
        flag: true,
    };
    t.units[0].registers[1] = Register {
        ticket: Ticket(65534),
        valid: true,
        flag: false,
    };
    next_in(t, 65534, 1, true, true)
}

// Core 0, away in line, has no register, and nobody is next in line.
fn taken_out(out: Stdout) -> Table {
    let mut t = away_in_line(out);
    t.units[0].registers[0] = blank();
    next_in(t, 0, 0, false, true)
}

// Core 0, dropped, has ticket 65,533 in this state.
fn ticket_kept(out: Stdout, state: State) -> Table {
    in_state(dropped_with_flag(out), 65533, state)
}

// The table with core 0 in a state, with this ticket, which it also carries, and unit 0.
fn in_state(table: Table, ticket: u16, state: State) -> Table {
    let mut t = table;
    t.cores[0] = core(Ticket(ticket), Ticket(ticket), UnitNo(0), UnitNo(0), state);
    t
}

// A table of D with a second-class unit.
fn second_class() -> Table {
    Table {
        counts: counts(Profile::D, 4, 2, 1),
        ..crate::dequeueing::begin()
    }
}
