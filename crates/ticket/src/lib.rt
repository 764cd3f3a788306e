// The three kinds of number that a lock block passes around, the order of tickets, the counter and
// the issuing unit.
//
// Every function is an entry: none has a `requires`, and each contract is an equation with a
// definition of specs/.
#![tactic(auto)]

mod issue;
mod kinds;
mod order;

pub use issue::{Issued, IssuingUnit, take};
pub use kinds::{CoreNo, Grant, Ticket, UnitNo};
pub use order::{Comparison, after, behind, compare};
