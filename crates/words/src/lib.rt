// Register words: what a part's registers read back as.
//
// Every public function is an entry: none has a `requires`.
#![tactic(auto)]

mod word;

pub use word::{pack, unpack};
