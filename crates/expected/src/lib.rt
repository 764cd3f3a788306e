// Expected lines as they are written: the output's line for a step.
//
// Entry: `write_expected` puts one whole line into lent bytes at a place, or changes none. Seams, its two halves: `expected_fits`,
// whether there is room, and `put_expected`, the line where there is.
#![tactic(auto)]

mod writer;

pub use writer::{EXPECTED_MOST, expected_fits, put_expected, put_shown, write_expected};
