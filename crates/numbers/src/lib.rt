// Numbers as a script has them: reading one field.
//
// Its one public function is an entry, with no `requires`: `read_field` goes over lent bytes from a place.
#![tactic(auto)]

mod number;

pub use number::{Field, read_field};
