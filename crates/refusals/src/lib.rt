// The refusals 10 to 15, in their order: whether a step is allowed, by the counts, the core that it names and, for 15, the cores'
// tickets.
//
// Seams, for the plan of a step: `judge`; for who works a table: `late_among`, and `late_for` where the tickets are kept apart.
#![tactic(auto)]

mod tickets;
mod verdict;

pub use tickets::{late_among, late_for};
pub use verdict::{Verdict, judge};
