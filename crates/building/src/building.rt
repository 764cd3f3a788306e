// Building the fresh table.
ghost use Rattle.std.specs.Prelude.{◌≡◌};
ghost use Rattle.building.specs.Build.{fresh, build};

use block::Table;
use parts::{Answer, CORES, Counts, Fill, Profile, UNITS, empty_unit, idle, in_range};
use ticket::Ticket;

// The counts of the least table.
pub const LEAST: Counts = Counts {
    cores: 1,
    first: 1,
    second: 0,
    profile: Profile::T,
    fill: Fill::Blank,
};

// The table that was built, with 0 or 20 for its answer. Not a `Result`: `build` promises a table where it refuses too.
#[derive(Clone, Copy)]
pub struct Built {
    pub table: Table,
    pub answer: Answer,
}

// Every core idle, no register valid, no flag set.
fn fresh(counts: Counts, counter: Ticket) -> Table
    ensures { result ≡ fresh counts counter }
{
    let x = empty_unit();
    let c = idle();
    Table {
        units: [x; UNITS],
        cores: [c; CORES],
        counts,
        counter,
    }
}

// The fresh table of these counts. Out of range: 20, and the fresh table of one core, one first-class
// unit, no second-class unit and counter 0.
pub fn build(counts: Counts, counter: Ticket) -> Built
    ensures { result ≡ build counts counter }
{
    if in_range(counts) {
        Built {
            table: fresh(counts, counter),
            answer: Answer::Done,
        }
    } else {
        Built {
            table: fresh(LEAST, Ticket(0)),
            answer: Answer::OutOfRange,
        }
    }
}
