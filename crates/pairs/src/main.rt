// Writes what the comparison answers to the seven pairs of document 01's proved table, and to pairs on both sides of
// each border, with and without a wrap: a line each, the two tickets and what the first is, seen from the second.
#![tactic(auto)]

use ticket::{Ticket, compare};

// The table's pairs; then the differences 0, 1, 32,767, 32,768, 32,769 and 65,535, from a ticket that wraps on the way.
const PAIRS: [(u16, u16); 15] = [
    (65535, 0),
    (0, 65535),
    (0, 32767),
    (32767, 0),
    (0, 32768),
    (32768, 0),
    (7, 7),
    (0, 32769),
    (32769, 0),
    (65000, 65000),
    (65001, 65000),
    (32231, 65000),
    (32232, 65000),
    (32233, 65000),
    (64999, 65000),
];

fn main(rt: HostRuntime) {
    for (a, b) in PAIRS {
        let x = compare(Ticket(a), Ticket(b));
        let _ = println!(rt; "{a}\t{b}\t{x}");
    }
}
