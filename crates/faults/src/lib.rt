// What is wrong with a line that is refused with 20 or 21.
//
// Every public function is an entry: none has a `requires`. `fault_at` goes over lent bytes from a place and answers an enum.
#![tactic(auto)]

mod fault;

pub use fault::{Fault, Form, Wrong, fault_at, longest, numbers};
