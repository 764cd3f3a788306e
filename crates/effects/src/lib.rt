// "The steps": the effect of each, when it is allowed.
//
// Seam, for the plan of a step: `step_effect`.
#![tactic(auto)]

mod kinds;
mod steps;

pub use kinds::{Effect, Move};
pub use steps::step_effect;
