// What becomes of a unit when a core enters or leaves it or shows another ticket there: who gets its flag, and who is next
// in line. The core's register and what the unit shows tell; the other registers are looked at only where the next in line
// went away.
ghost use Rattle.std.specs.Prelude.{◌≡◌, ◌≤◌, ◌<◌};
ghost use Rattle.parts.specs.Parts.{cores};
ghost use Rattle.settling.specs.Line.{Within};
ghost use Rattle.settling.specs.Settle.{becomes, stay, compared, is_next, enter, passed, leave, carry, passed_to_lem, with_flag, repicked};

use crate::line::{Best, next_of, stored};
use crate::next::shown_as;
use parts::{LockUnit, Next, Register, blank, flagged, registered, showing, standing};
use ticket::{Comparison, CoreNo, Ticket, compare};

// What becomes of a unit in which a core moves: the core's register, what the unit shows, and who gets its flag. With
// `repick` the next in line went away, and the pairs are gone through for another.
#[derive(Clone, Copy, Debug, PartialEq, Eq)]
pub struct Change {
    pub register: Register,
    pub next: Next,
    pub winner: Best,
    pub repick: bool,
}

fn becomes(register: Register, next: Next, winner: Best, repick: bool) -> Change
    ensures { result ≡ becomes register next winner repick }
{
    Change {
        register,
        next,
        winner,
        repick,
    }
}

// Seam: nothing changes.
pub fn stay(r: Register, v: Next) -> Change
    ensures { result ≡ stay r v }
{
    becomes(r, v, None, false)
}

// Core k, in line with the ticket t, and the one that is next: the older is next.
fn compared(b: Best, k: CoreNo, t: Ticket) -> Best
    ensures { result ≡ compared b k t }
{
    match b {
        Some((_, s)) if compare(t, s) != Comparison::Older => b,
        _ => Some((k, t)),
    }
}

// Whether core k is the one that a unit shows.
fn is_next(v: Next, k: CoreNo) -> bool
    ensures { result ≡ is_next v k }
{
    v.valid & (v.core == k)
}

// Seam: core k enters a unit with a ticket. One that has a flag set lets it stand, and it is compared with the next in
// line; a free one is its own.
pub fn enter(v: Next, k: CoreNo, t: Ticket) -> Change
    ensures { result ≡ enter v k t }
{
    let r = standing(t);
    if v.held {
        becomes(r, shown_as(compared(stored(v), k, t), true), None, false)
    } else {
        becomes(flagged(r), shown_as(None, true), Some((k, t)), false)
    }
}

// A core gives up its flag: the next in line gets it, and another is next.
fn passed(b: Best) -> Change
    ensures { result ≡ passed b }
{
    let to = b.is_some();
    becomes(blank(), shown_as(None, to), b, to)
}

// Seam: core k gives up its register. If its flag was set, the next in line gets it.
pub fn leave(r: Register, v: Next, k: CoreNo) -> Change
    ensures { result ≡ leave r v k }
{
    if r.flag {
        passed(stored(v))
    } else {
        becomes(blank(), v, None, is_next(v, k))
    }
}

// Seam: core k, which stands in line, shows the ticket t from now on. If it was next and is younger now, another may be.
pub fn carry(v: Next, k: CoreNo, t: Ticket) -> Change
    ensures { result ≡ carry v k t }
{
    let r = standing(t);
    if !is_next(v, k) {
        return becomes(r, shown_as(compared(stored(v), k, t), true), None, false);
    }
    if compare(t, v.ticket) == Comparison::Younger {
        becomes(r, v, None, true)
    } else {
        becomes(r, shown_as(Some((k, t)), true), None, false)
    }
}

// Seam: the core whose flag is set, core k itself where nobody's is.
pub fn passed_to(b: Best, k: CoreNo) -> CoreNo
    ensures { result ≡ passed_to_lem b k }
{
    b.map_or(k, |(j, _)| j)
}

// Seam: that core's register: its flag is set, if anybody's is.
pub fn with_flag(r: Register, b: Best) -> Register
    ensures { result ≡ with_flag r b }
{
    match b {
        None => r,
        Some(_) => flagged(r),
    }
}

// What a unit that has a flag set shows, found by the pairs.
pub(crate) fn repicked(n: u16, x: LockUnit) -> Next
    requires { n ≤ cores }
    ensures { result ≡ repicked n x }
{
    shown_as(next_of(n, x), true)
}
