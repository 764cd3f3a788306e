// A captured log, run through the rules: each line's step is worked and what the part showed is compared with what
// the rules give, up to the first line that disagrees.
//
// Every public function is an entry: none has a `requires`.
#![tactic(auto)]

mod call;

pub use call::{Checked, LogStop, check, log_number};
