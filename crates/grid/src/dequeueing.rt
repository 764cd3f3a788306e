// The dequeueing method: profile D, on a table of four cores and two units.
use crate::steps::{build, come_back, each, interrupt, nest, others, poll, release, request, run};
use block::Table;
use parts::Profile;
use std::io::Stdout;

// Each letter in each state of core 0, and before cores that are away.
pub(crate) fn states(out: Stdout) {
    tries(out, begin());
    tries(out, waiting(out));
    tries(out, unpolled(out));
    tries(out, holding(out));
    tries(out, away_in_line(out));
    tries(out, away_before_another(out));
    tries(out, turn_came(out));
    tries(out, turn_came_last(out));
    tries(out, dropped_with_flag(out));
    tries(out, dropped_from_free(out));
    tries(out, before_one_away(out));
    tries(out, before_two_away(out));
    tries(out, unpolled_before_two_away(out));
    tries(out, before_three_away(out));
    tries(out, before_away_behind(out));
    tries(out, back_with_ticket(out));
    tries(out, back_with_new_ticket(out));
}

// Each letter for core 0, with units and one past them; those that do not ask for a unit for core 1; core 2's coming back; and each for a
// core past the count.
fn tries(out: Stdout, t: Table) {
    each(out, t, &[request(0, 0), request(0, 1), request(0, 2)]);
    each(out, t, &[nest(0, 0), nest(0, 1), nest(0, 2)]);
    others(out, t, 0);
    others(out, t, 1);
    each(out, t, &[come_back(2), request(4, 2), nest(4, 0)]);
    others(out, t, 4);
}

// Core 0 idle.
pub(crate) fn begin() -> Table {
    build(Profile::D, 4, 2, 0, 65534)
}

// Core 0 waiting, flag clear.
fn waiting(out: Stdout) -> Table {
    run(out, begin(), &[request(1, 0), request(0, 0)])
}

// Core 0 waiting, flag set and not polled.
fn unpolled(out: Stdout) -> Table {
    run(out, begin(), &[request(0, 0), request(1, 0)])
}

// Core 0 holding.
fn holding(out: Stdout) -> Table {
    run(out, unpolled(out), &[poll(0)])
}

// Core 0 away in line.
pub(crate) fn away_in_line(out: Stdout) -> Table {
    run(out, waiting(out), &[interrupt(0)])
}

// Core 0 away in line, before core 2.
pub(crate) fn away_before_another(out: Stdout) -> Table {
    run(out, away_in_line(out), &[request(2, 0)])
}

// Core 0 dropped as its turn came, and core 2 granted.
fn turn_came(out: Stdout) -> Table {
    run(out, away_before_another(out), &[poll(1), release(1)])
}

// Core 0 dropped as its turn came, and the unit is free.
fn turn_came_last(out: Stdout) -> Table {
    run(out, away_in_line(out), &[poll(1), release(1)])
}

// Core 0 dropped, having had the flag, and core 1 granted.
pub(crate) fn dropped_with_flag(out: Stdout) -> Table {
    run(out, unpolled(out), &[interrupt(0)])
}

// Core 0 dropped, having had the flag, and the unit is free.
fn dropped_from_free(out: Stdout) -> Table {
    run(out, begin(), &[request(0, 1), interrupt(0)])
}

// Core 0 with the flag, and cores 1 and 2 behind it.
fn two_behind(out: Stdout) -> Table {
    run(out, unpolled(out), &[request(2, 0)])
}

// Core 0 with the flag, and three cores behind it.
fn three_behind(out: Stdout) -> Table {
    run(out, two_behind(out), &[request(3, 0)])
}

// Core 0 holding, before one that is away and one that is not.
fn before_one_away(out: Stdout) -> Table {
    run(out, two_behind(out), &[interrupt(1), poll(0)])
}

// Core 0 holding, before two that are away and one that is not.
fn before_two_away(out: Stdout) -> Table {
    run(out, unpolled_before_two_away(out), &[poll(0)])
}

// Core 0 the same, flag set and not polled.
fn unpolled_before_two_away(out: Stdout) -> Table {
    run(out, three_behind(out), &[interrupt(1), interrupt(2)])
}

// Core 0 holding, before three that are away.
fn before_three_away(out: Stdout) -> Table {
    let t = run(out, three_behind(out), &[interrupt(3), interrupt(2)]);
    run(out, t, &[interrupt(1), poll(0)])
}

// Core 0 holding, before one that is not away and one that is.
fn before_away_behind(out: Stdout) -> Table {
    run(out, two_behind(out), &[interrupt(2), poll(0)])
}

// Core 0 back with its ticket.
fn back_with_ticket(out: Stdout) -> Table {
    run(out, away_before_another(out), &[come_back(0)])
}

// Core 0 back with a new ticket.
fn back_with_new_ticket(out: Stdout) -> Table {
    run(out, dropped_with_flag(out), &[come_back(0)])
}
