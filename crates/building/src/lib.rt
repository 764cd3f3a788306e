// Building the fresh table.
//
// Entry, which has no `requires`: `build`. `LEAST` are the counts of the table where it refuses, and of a run at its beginning.
#![tactic(auto)]

mod building;

pub use building::{Built, LEAST, build};
