// A run so far, why it stops, and what is due at its next line.
//
// Every public function is an entry: none has a `requires`.
#![tactic(auto)]

mod run;
mod todo;

pub use run::{Run, STEPS_MOST, Stop, Stopped, beginning, stop_number};
pub use todo::{Todo, due};
