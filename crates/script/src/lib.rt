// The script reader: the lent script and a place in it.
//
// Every public function is an entry: none has a `requires`. `ScriptReader` holds the lent script and its place; `read_step` and
// `read_header` go through it, and are for callers that hold the bytes and the place themselves.
#![tactic(auto)]

mod reader;

pub use reader::{ReadOn, ScriptReader, read_header, read_step};
