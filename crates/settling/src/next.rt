// What a unit shows of its line: who is next, and whether a flag is set.
ghost use Rattle.std.specs.Prelude.{◌≡◌, ◌≤◌, eqb};
ghost use Rattle.parts.specs.Parts.{cores};
ghost use Rattle.settling.specs.Line.{flags};
ghost use Rattle.settling.specs.Shown.{shown_as, next_of, shown, agree, same, shows_next_lem};

use crate::line::{Best, next_of};
use parts::{LockUnit, Next, next_in_line, showing};
use ticket::{CoreNo, Ticket};

// Seam: what a unit shows, by who is next in line and whether a flag is set.
pub fn shown_as(b: Best, held: bool) -> Next
    ensures { result ≡ shown_as b held }
{
    match b {
        None => next_in_line(Ticket(0), CoreNo(0), false, held),
        Some((k, t)) => next_in_line(t, k, true, held),
    }
}

// Whether no flag is set.
fn free(n: u16, x: LockUnit) -> bool
    requires { n ≤ cores }
    ensures { result ≡ eqb (flags n x) 0 }
{
    !x.registers[..usize::from(n)].iter().any(|r| r.flag)
}

// Seam: what the first n registers of a unit ask for.
pub fn next_shown(n: u16, x: LockUnit) -> Next
    requires { n ≤ cores }
    ensures { result ≡ next_of n x }
{
    shown_as(next_of(n, x), !free(n, x))
}

// Seam: the unit that shows what its first n registers ask for.
pub fn shown(n: u16, x: LockUnit) -> LockUnit
    requires { n ≤ cores }
    ensures { result ≡ shown n x }
{
    showing(x, next_shown(n, x))
}

// Seam: whether a unit shows just what its first n registers ask for.
pub fn shows_next(n: u16, x: LockUnit) -> bool
    requires { n ≤ cores }
    ensures { result ≡ shows_next_lem n x }
{
    x.next == next_shown(n, x)
}
