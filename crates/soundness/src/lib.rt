// Soundness: a test for each clause that speaks of a table's cores, and for each that speaks of one unit.
//
// Seams, for the table's test: `cores_sound`, `unit_sound`.
#![tactic(auto)]

mod cores;
mod units;

pub use cores::cores_sound;
pub use units::unit_sound;
