// Core, unit and ticket numbers are three types, so that one handed over for another is a compile
// error and not a wrong answer.
ghost use Rattle.std.specs.Prelude.{◌≡◌};
ghost use Rattle.ticket.specs.Kinds.{grant};

// A core, counted from 0.
#[derive(Clone, Copy, Debug, PartialEq, Eq)]
pub struct CoreNo(pub u16);

// A lock unit, counted from 0: the first class, then the second.
#[derive(Clone, Copy, Debug, PartialEq, Eq)]
pub struct UnitNo(pub u16);

// A ticket: what the 16-bit counter stood at when its request was accepted.
#[derive(Clone, Copy, Debug, PartialEq, Eq)]
pub struct Ticket(pub u16);

// A unit, and the core that it goes to.
#[derive(Clone, Copy, Debug, PartialEq, Eq)]
pub struct Grant {
    pub unit: UnitNo,
    pub core: CoreNo,
}

impl Grant {
    // The grant of `unit` to `core`.
    pub fn of(unit: UnitNo, core: CoreNo) -> Self
        ensures { result ≡ grant unit core }
    {
        Grant { unit, core }
    }
}
