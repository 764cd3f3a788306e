// Script lines as they are written, and the output's first line.
//
// Every public function is an entry: none has a `requires`. `write_header`, `write_opening` and `write_step` put one whole line into
// lent bytes at a place, or change none.
#![tactic(auto)]

mod writer;

pub use writer::{write_header, write_opening, write_step};
