// The places that a step reads and writes: of its core, and of the one or two units that it touches.
//
// Seams, for a run and for the table's steps: `core_place`, `unit_place`, `other_place`.
#![tactic(auto)]

mod place;

pub use place::{core_place, other_place, unit_place};
