// A line of a captured log: its step part and the numbers shown behind it, read, and held to what the rules give.
//
// Every public function is a seam of the check.
#![tactic(auto)]

mod line;
mod quick;
mod seen;

pub use line::{Judged, LOG_MOST, Mismatch, Part, all_numbers, held, log_end, step_part};
pub use quick::{Quick, begins, quick_part};
pub use seen::{Given, Off, Seen};
