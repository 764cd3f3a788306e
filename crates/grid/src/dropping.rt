// Runs of profile D in which cores are dropped, and counts of D.
use crate::steps::{
    LAST, OTHER, PAST, build, come_back, counted, each, interrupt, poll, ranges, release, request,
    run,
};
use parts::{CORES, PER_CLASS, Profile};
use std::io::Stdout;

// Two dropped in one release, and a third granted; then they come back, and one is dropped again.
pub(crate) fn dropped_in_a_row(out: Stdout) {
    let t = build(Profile::D, 4, 2, 0, 10);
    let t = run(out, t, &[request(0, 0), poll(0), request(1, 0)]);
    let t = run(out, t, &[request(2, 0), request(3, 0), interrupt(1)]);
    let t = run(out, t, &[interrupt(2), release(0), come_back(2)]);
    let t = run(out, t, &[come_back(1), poll(3), interrupt(2), release(3)]);
    run(out, t, &[poll(1)]);
}

// Core 3 is passed as often as can be, across the wrap.
pub(crate) fn passed(out: Stdout) {
    let t = build(Profile::D, 4, 1, 0, 65534);
    let t = run(out, t, &[request(0, 0), request(1, 0), request(2, 0)]);
    let t = run(out, t, &[interrupt(1), interrupt(2), request(3, 0)]);
    let t = run(out, t, &[come_back(2), come_back(1), interrupt(0)]);
    let t = run(out, t, &[come_back(0), poll(1), release(1), poll(3)]);
    run(out, t, &[poll(2), release(2), poll(3)]);
}

// The last cores and units of the largest table; and the core and the unit past them.
pub(crate) fn last_cores(out: Stdout) {
    let t = build(Profile::D, CORES as u16, PER_CLASS as u16, 0, 65534);
    let t = run(out, t, &[request(LAST, 7), request(OTHER, 7)]);
    let t = run(out, t, &[request(9, 7), interrupt(OTHER), poll(LAST)]);
    let t = run(out, t, &[release(LAST), come_back(OTHER), request(PAST, 7)]);
    let t = run(out, t, &[request(10, 8), interrupt(9), come_back(9)]);
    run(out, t, &[poll(OTHER), release(OTHER)]);
}

// A request and two that come back, with ticket 0 live, core 1 dropped from unit 1, and this counter.
pub(crate) fn stretched(out: Stdout, counter: u16) {
    let t = build(Profile::D, 3, 2, 0, 0);
    let t = run(out, t, &[request(0, 0), request(1, 1), interrupt(1)]);
    let t = counted(t, counter);
    each(out, t, &[request(2, 1), come_back(1), come_back(2)]);
}

// Core 0 dropped, having had ticket 0, which is live no more: half the circle behind the counter it is in nobody's way.
pub(crate) fn ticket_ended(out: Stdout) {
    let t = build(Profile::D, 3, 2, 0, 0);
    let t = run(out, t, &[request(0, 0), interrupt(0)]);
    let t = counted(t, 32768);
    each(out, t, &[request(2, 1), come_back(0)]);
}

// Counts at and past the ends of their ranges.
pub(crate) fn ranges_at_ends(out: Stdout) {
    let cores = CORES as u16;
    let units = PER_CLASS as u16;
    ranges(
        out,
        Profile::D,
        &[
            (1, 1, 0),
            (cores, units, 0),
            (0, 1, 0),
            (cores + 1, 1, 0),
            (1, 0, 0),
            (1, units + 1, 0),
            (1, 1, 1),
            (cores, units, units),
            (1, 1, units + 1),
        ],
    );
}
