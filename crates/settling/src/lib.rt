// Settling one unit: who is next in line at it, which it stores, and who gets its flag when a core enters or leaves it.
// Only the registers of the first n cores are looked at: those of a sound table.
//
// Seams: `next_of`, `next_shown`, `shown` and `shows_next`, by the registers; `stored`, `stay`, `enter`, `leave` and `carry`, by what a
// unit shows, for the effect and the plan of a step; `change`, for putting that back; `passed_to` and `with_flag`, for passing a flag on;
// `shown_as`, `front` and `drop_before`, for a unit that is to settle while some in line are away.
#![tactic(auto)]

mod changing;
mod dropping;
mod line;
mod next;
mod pairs;
mod settle;

pub use changing::change;
pub use dropping::{Dropping, drop_before, front};
pub use line::{Best, next_of, stored};
pub use next::{next_shown, shown, shown_as, shows_next};
pub use settle::{Change, carry, enter, leave, passed_to, stay, with_flag};
