// The two-stage algorithm: profile T.
use crate::steps::{
    LAST, OTHER, PAST, build, come_back, counted, each, interrupt, nest, others, poll, ranges,
    release, request, run,
};
use block::Table;
use parts::{CORES, PER_CLASS, Profile};
use std::io::Stdout;

// Each letter in each state of core 0.
pub(crate) fn states(out: Stdout) {
    tries(out, begin());
    tries(out, waiting(out));
    tries(out, unpolled(out));
    tries(out, holding(out));
    tries(out, holding_second_class(out));
    tries(out, waiting_second(out));
    tries(out, heir(out));
    tries(out, giver_gone(out));
    tries(out, unpolled_second(out));
    tries(out, holding_both(out));
    tries(out, away(out));
}

// Each letter for core 0, with units of both classes and one past them; and each for a core past
// the count.
fn tries(out: Stdout, t: Table) {
    each(out, t, &[request(0, 0), request(0, 3), request(0, 4)]);
    each(out, t, &[nest(0, 0), nest(0, 3), nest(0, 4)]);
    others(out, t, 0);
    each(out, t, &[request(3, 4), nest(3, 0)]);
    others(out, t, 3);
}

// Core 0 idle.
pub(crate) fn begin() -> Table {
    build(Profile::T, 3, 2, 2, 65534)
}

// Core 0 waiting, flag clear.
pub(crate) fn waiting(out: Stdout) -> Table {
    run(out, begin(), &[request(1, 0), request(0, 0)])
}

// Core 0 waiting, flag set and not polled.
pub(crate) fn unpolled(out: Stdout) -> Table {
    run(out, begin(), &[request(0, 0), request(1, 0)])
}

// Core 0 holding a first-class unit.
fn holding(out: Stdout) -> Table {
    run(out, begin(), &[request(0, 0), request(1, 0), poll(0)])
}

// Core 0 holding a second-class unit.
fn holding_second_class(out: Stdout) -> Table {
    run(out, begin(), &[request(0, 2), request(1, 2), poll(0)])
}

// Core 0 waiting at a second, flag clear.
fn waiting_second(out: Stdout) -> Table {
    let t = run(out, begin(), &[request(1, 2), request(0, 0), poll(0)]);
    run(out, t, &[request(2, 0), nest(0, 2)])
}

// Core 0 the same with an older ticket to inherit.
fn heir(out: Stdout) -> Table {
    let t = run(out, begin(), &[request(2, 0), request(1, 2), request(0, 0)]);
    run(out, t, &[interrupt(2), poll(0), nest(0, 2), come_back(2)])
}

// Core 0 the same after it inherited and the giver was interrupted: its poll gives the ticket back.
fn giver_gone(out: Stdout) -> Table {
    run(out, heir(out), &[poll(0), interrupt(2)])
}

// Core 0 waiting at a second, flag set and not polled.
fn unpolled_second(out: Stdout) -> Table {
    let t = run(out, begin(), &[request(0, 0), poll(0), request(1, 0)]);
    run(out, t, &[nest(0, 2)])
}

// Core 0 holding both.
fn holding_both(out: Stdout) -> Table {
    let t = run(out, begin(), &[request(0, 0), poll(0), request(1, 0)]);
    run(out, t, &[nest(0, 2), request(2, 2), poll(0)])
}

// Core 0 away.
fn away(out: Stdout) -> Table {
    run(out, begin(), &[request(1, 0), request(0, 0), interrupt(0)])
}

// The run of document 01.
pub(crate) fn document_run(out: Stdout) {
    let t = build(Profile::T, 3, 1, 1, 65535);
    let t = run(out, t, &[request(0, 1), poll(0), request(2, 0)]);
    let t = run(out, t, &[request(1, 0), interrupt(2), poll(1), nest(1, 1)]);
    let t = run(out, t, &[come_back(2), poll(1), interrupt(0), release(0)]);
    run(out, t, &[poll(1), release(1)]);
}

// The last cores and units of the largest table: the last core holds one and waits at the other, which core 9 holds.
fn last_cores_met(out: Stdout) -> Table {
    let t = build(
        Profile::T,
        CORES as u16,
        PER_CLASS as u16,
        PER_CLASS as u16,
        65534,
    );
    let t = run(out, t, &[request(LAST, 7), request(9, 15)]);
    let t = run(out, t, &[request(OTHER, 7), poll(LAST), nest(LAST, 15)]);
    let t = run(out, t, &[request(10, 15), poll(LAST), interrupt(OTHER)]);
    run(out, t, &[poll(9)])
}

// The two units go round, two of them with one release; and the core past the last.
pub(crate) fn last_cores(out: Stdout) {
    let t = last_cores_met(out);
    let t = run(out, t, &[come_back(OTHER), request(PAST, 0), poll(PAST)]);
    let t = run(out, t, &[release(9), poll(LAST), release(LAST), poll(10)]);
    let t = run(out, t, &[poll(OTHER), interrupt(10), come_back(10)]);
    run(out, t, &[release(OTHER)]);
}

// A request with ticket 0 live and this counter.
pub(crate) fn stretched(out: Stdout, counter: u16) {
    let s = build(Profile::T, 3, 2, 2, 0).step(request(0, 0));
    run(out, counted(s.table, counter), &[request(1, 0)]);
}

// Counts at and past the ends of their ranges.
pub(crate) fn ranges_at_ends(out: Stdout) {
    let cores = CORES as u16;
    let units = PER_CLASS as u16;
    ranges(
        out,
        Profile::T,
        &[
            (1, 1, 0),
            (cores, units, units),
            (0, 1, 0),
            (9, 1, 0),
            (cores + 1, 1, 0),
            (1, 0, 0),
            (1, units + 1, 0),
            (1, 1, units + 1),
        ],
    );
}
