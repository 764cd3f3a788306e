// A unit's next in line.
ghost use Rattle.std.specs.Prelude.{◌<◌};

use crate::bytes::{byte, half};
use crate::text::Answers;
use parts::{Next, next_in_line};
use ticket::{CoreNo, Ticket};

// The next in line at a place: ticket, core, valid, held.
pub(crate) fn next(s: &[u8], at: usize) -> Next
    requires { at < 32768 }
{
    let valid = byte(s, at + 4) != 0;
    let held = byte(s, at + 5) != 0;
    next_in_line(Ticket(half(s, at)), CoreNo(half(s, at + 2)), valid, held)
}

pub(crate) fn put_next(a: &mut Answers<'_>, n: Next) {
    a.field(n.ticket.0);
    a.field(n.core.0);
    a.field(n.valid);
    a.field(n.held);
}
