// Registers, units, cores and counts by themselves; steps and their answers.
//
// Entries: `in_range`, `number`, `whose`. Seams, for the crates that plan and work steps: registers, units and cores as
// they are made (`blank`, `standing`, `flagged`, `empty_unit`, `registered`, `next_in_line`, `showing`, `idle`,
// `core`, `dropped`), and the tests of a state and of a profile.
#![tactic(auto)]

mod answer;
mod kinds;
mod made;
mod profile;
mod range;
mod state;

pub use answer::{Answer, Grants, Step, number, whose};
pub use kinds::{
    CORES, Core, Counts, Fill, LockUnit, Next, PER_CLASS, Profile, Register, State, UNITS,
};
pub use made::{
    blank, core, dropped, empty_unit, flagged, idle, next_in_line, registered, showing, standing,
};
pub use profile::{dequeues, suits};
pub use range::in_range;
pub use state::{
    holds, holds_both, holds_first, holds_one, is_away, is_dropped, is_idle, is_live, is_marked,
    stands, two_stage, unserved, waits,
};
