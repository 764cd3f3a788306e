// The translation: one call takes the run so far, the lent script bytes and the lent output bytes, and
// hands back the run with why it stopped.
//
// Every public function is an entry: none has a `requires`.
#![tactic(auto)]

mod call;

pub use call::translate;
