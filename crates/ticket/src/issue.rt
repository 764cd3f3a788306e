// The issuing unit: one counter, which each accepted request moves on by one.
ghost use Rattle.std.specs.Prelude.{◌≡◌};
ghost use Rattle.ticket.specs.Issue.{issue};

use crate::kinds::Ticket;
use crate::order::after;

// The unit's only content: the ticket that it hands out next.
#[derive(Clone, Copy, Debug, PartialEq, Eq)]
pub struct IssuingUnit {
    pub counter: Ticket,
}

// A ticket handed out, and the unit moved on by one.
#[derive(Clone, Copy, Debug, PartialEq, Eq)]
pub struct Issued {
    pub ticket: Ticket,
    pub unit: IssuingUnit,
}

impl IssuingUnit {
    // Hands out the counter as a ticket.
    pub fn issue(self) -> Issued
        ensures { result ≡ issue self }
    {
        let ticket = self.counter;
        let counter = after(ticket);
        Issued {
            ticket,
            unit: IssuingUnit { counter },
        }
    }

    // The same of a unit that is lent: the ticket is handed out, and the unit is left moved on by one.
    pub fn advance(&mut self) -> Ticket
        ensures { (result ≡ (issue self.old).ticket) × (self.new ≡ (issue self.old).unit) }
    {
        let issued = (*self).issue();
        *self = issued.unit;
        issued.ticket
    }
}

// The unit at a counter is made and lent for one ticket: the ticket, and the unit as it is left.
pub fn take(counter: Ticket) -> Issued
    ensures { result ≡ issue (record { counter = counter }) }
{
    let mut unit = IssuingUnit { counter };
    let ticket = unit.advance();
    Issued { ticket, unit }
}
