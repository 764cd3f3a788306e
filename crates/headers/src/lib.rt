// A script's header as it is read.
//
// The public function is an entry: it has no `requires`. `header_line_at` goes over lent bytes from a place.
#![tactic(auto)]

mod reading;

pub use reading::{BadHeader, HeaderLine, ParsedHeader, header_line_at};
