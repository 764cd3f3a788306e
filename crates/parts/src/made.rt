// Registers, units and cores as they are made and changed.
ghost use Rattle.std.specs.Prelude.{◌≡◌, ◌<◌};
ghost use Rattle.parts.specs.Parts.{cores, blank, standing, flagged, next_in_line, empty_unit_lem, registered, showing, idle, core, dropped};

use crate::kinds::{CORES, Core, Fill, LockUnit, Next, Register, State};
use ticket::{CoreNo, Ticket, UnitNo};

// A register that nobody stands in.
pub fn blank() -> Register
    ensures { result ≡ blank }
{
    Register {
        ticket: Ticket(0),
        valid: false,
        flag: false,
    }
}

// A register as it is entered: valid, without a flag.
pub fn standing(t: Ticket) -> Register
    ensures { result ≡ standing t }
{
    Register {
        ticket: t,
        valid: true,
        flag: false,
    }
}

// A register with its flag set.
pub fn flagged(r: Register) -> Register
    ensures { result ≡ flagged r }
{
    Register { flag: true, ..r }
}

// A next in line, by what it shows.
pub fn next_in_line(ticket: Ticket, core: CoreNo, valid: bool, held: bool) -> Next
    ensures { result ≡ next_in_line ticket core valid held }
{
    Next {
        ticket,
        core,
        valid,
        held,
        fill: Fill::Blank,
        rest: Fill::Blank,
    }
}

// A unit with no register valid and no flag set.
pub fn empty_unit() -> LockUnit
    ensures { result ≡ empty_unit_lem }
{
    let r = blank();
    LockUnit {
        registers: [r; CORES],
        next: next_in_line(Ticket(0), CoreNo(0), false, false),
    }
}

// The unit in which the register of core k became r.
pub fn registered(x: LockUnit, k: CoreNo, r: Register) -> LockUnit
    requires { k.0 < cores }
    ensures { result ≡ registered x k.0 r }
{
    let i = k.0 as usize;
    let mut y = x;
    y.registers[i] = r;
    y
}

// The unit that shows v as its next in line.
pub fn showing(x: LockUnit, v: Next) -> LockUnit
    ensures { result ≡ showing x v }
{
    LockUnit { next: v, ..x }
}

// A core without a ticket.
pub fn idle() -> Core
    ensures { result ≡ idle }
{
    Core {
        own: Ticket(0),
        carried: Ticket(0),
        first: UnitNo(0),
        second: UnitNo(0),
        state: State::Idle,
        fill: Fill::Blank,
    }
}

// A core, by what it carries.
pub fn core(own: Ticket, carried: Ticket, first: UnitNo, second: UnitNo, state: State) -> Core
    ensures { result ≡ core own carried first second state }
{
    Core {
        own,
        carried,
        first,
        second,
        state,
        fill: Fill::Blank,
    }
}

// The core c when it is dropped: its ticket has ended, and it still names its unit.
pub fn dropped(c: Core) -> Core
    ensures { result ≡ dropped c }
{
    core(Ticket(0), Ticket(0), c.first, UnitNo(0), State::Dropped)
}
