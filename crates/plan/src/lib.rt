// The plan of a step: from the core that it names and what it reads of the units at its places, what becomes of them, of the
// counter, and what the tester must see.
//
// Seams, for a run that knows its table to be sound: `Part::of`, `plan_step`.
#![tactic(auto)]

mod grants;
mod planning;

pub use planning::{Part, Plan, plan_step};
