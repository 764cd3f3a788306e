// Script lines as they are read.
//
// Every public function is an entry: none has a `requires`. `step_line_at`, `line_end` and `end_within` go over lent bytes from a place;
// `one_number` and `two_numbers` give the step of a letter and its numbers.
#![tactic(auto)]

mod reading;

pub use reading::{
    BadLine, Ending, LINE_MOST, NoEnd, Parsed, StepLine, end_within, line_end, one_number,
    step_line_at, two_numbers,
};
