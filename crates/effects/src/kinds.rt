// The effect of a step: a record of what it does.
use parts::{Answer, Core};
use ticket::{Ticket, UnitNo};

// What a core does with its registers.
#[derive(Clone, Copy, Debug, PartialEq, Eq)]
pub enum Move {
    // It leaves them as they are.
    Stay,
    // It enters a unit with a ticket.
    Enter(UnitNo, Ticket),
    // It shows another ticket at its second unit.
    Carry(Ticket),
    // It gives up every register.
    GiveUp,
}

// What becomes of the core and of the counter, what the core does with its registers, and the answer and the
// ticket that the tester must see.
#[derive(Clone, Copy, Debug, PartialEq, Eq)]
pub struct Effect {
    pub core: Core,
    pub counter: Ticket,
    pub ticket: Ticket,
    pub does: Move,
    pub answer: Answer,
}
