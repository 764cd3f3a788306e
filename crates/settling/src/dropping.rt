// Dropping: where the oldest in line is away, that core is dropped, its ticket ends, and the next is looked at. All who are to be dropped are found at
// once: they are away, and stand before whoever is first of those who are not.
ghost use Rattle.std.specs.Prelude.{◌≡◌, ◌≤◌};
ghost use Rattle.parts.specs.Parts.{cores, showing};
ghost use Rattle.settling.specs.Line.{next};
ghost use Rattle.settling.specs.Shown.{shown_as};
ghost use Rattle.settling.specs.InFront.{unless_away, present, before, goes, dropped_before};

use crate::line::{Best, in_line, next_of};
use crate::next::shown_as;
use parts::{CORES, Core, LockUnit, Register, blank, dropped, is_away, showing};
use ticket::{Comparison, Ticket, compare};

// A unit and the cores of its table.
#[derive(Clone, Copy, Debug, PartialEq, Eq)]
pub struct Dropping {
    pub unit: LockUnit,
    pub cores: [Core; CORES],
}

// The register of core c, unless it is away.
fn unless_away(c: Core, r: Register) -> Register
    ensures { result ≡ unless_away c r }
{
    if is_away(c.state) { blank() } else { r }
}

// The unit without those of the first n cores who are away.
fn present(n: u16, unit: LockUnit, all: [Core; CORES]) -> LockUnit
    requires { n ≤ cores }
    ensures { result ≡ present n unit all }
{
    let mut x = unit;
    for i in 0..usize::from(n) {
        x.registers[i] = unless_away(all[i], x.registers[i]);
    }
    x
}

// Whether a ticket stands before whoever is first.
fn before(first: Best, t: Ticket) -> bool
    ensures { result ≡ before first t }
{
    first.is_none_or(|(_, w)| compare(t, w) == Comparison::Older)
}

// Whether core c, whose register is r, is dropped.
fn goes(first: Best, c: Core, r: Register) -> bool
    ensures { result ≡ goes first c r }
{
    in_line(r) & is_away(c.state) & before(first, r.ticket)
}

// The unit and the cores after those of the first n are dropped who are away and stand before whoever is first.
fn dropped_before(n: u16, first: Best, unit: LockUnit, all: [Core; CORES]) -> Dropping
    requires { n ≤ cores }
    ensures { result ≡ dropped_before n first unit all }
{
    let mut x = unit;
    let mut left = all;
    for i in 0..usize::from(n) {
        if goes(first, left[i], x.registers[i]) {
            x.registers[i] = blank();
            left[i] = dropped(left[i]);
        }
    }
    Dropping {
        unit: x,
        cores: left,
    }
}

// Seam: of the first n cores, who is first in line of those who are not away.
pub fn front(n: u16, unit: &LockUnit, all: &[Core; CORES]) -> Best
    requires { n ≤ cores }
    ensures { result ≡ next n (present n unit.now all.now) }
{
    next_of(n, present(n, *unit, *all))
}

// Seam: the unit and the cores of n after those are dropped who are away and stand before whoever is first, whom the unit shows then.
pub fn drop_before(n: u16, first: Best, unit: LockUnit, all: [Core; CORES]) -> Dropping
    requires { n ≤ cores }
    ensures { result ≡ dropped_before n first (showing unit (shown_as first unit.next.held)) all }
{
    let x = showing(unit, shown_as(first, unit.next.held));
    dropped_before(n, first, x, all)
}
