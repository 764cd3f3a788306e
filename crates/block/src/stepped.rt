// What a step hands back.
ghost use Rattle.std.specs.Prelude.{◌≡◌};
ghost use Rattle.block.specs.Steps.{refusal};

use crate::table::Table;
use parts::{Answer, Grants};
use ticket::Ticket;

// The next table, and what the tester must see: the answer, the ticket and the grants.
#[derive(Clone, Copy)]
pub struct Stepped {
    pub table: Table,
    pub answer: Answer,
    pub ticket: Ticket,
    pub grants: Grants,
}

// A refused step: the same table, ticket 0, no grants.
pub(crate) fn refused(t: Table, a: Answer) -> Stepped
    ensures { result ≡ refusal t a }
{
    Stepped {
        table: t,
        answer: a,
        ticket: Ticket(0),
        grants: Grants::None,
    }
}
