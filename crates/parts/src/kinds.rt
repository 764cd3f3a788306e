// Registers, units and cores by themselves.
//
// What lies in an array has its fields from wide to narrow and no gap: a table with a gap cannot be
// copied in blocks.
use ticket::{CoreNo, Ticket, UnitNo};

// The greatest number of cores, of units of one class, and of units.
pub const CORES: usize = 32;

pub const PER_CLASS: usize = 8;

pub const UNITS: usize = 16;

// A unit's register for one core, with its grant flag.
#[derive(Clone, Copy, Debug, PartialEq, Eq)]
pub struct Register {
    pub ticket: Ticket,
    pub valid: bool,
    pub flag: bool,
}

// Who is next in line at a unit, with its ticket, if anyone is (if not, both are 0); and whether a flag of the unit
// is set, so that a core that enters need look at nothing else. With its last two bytes a unit's size is a multiple of
// eight, and it is copied in eights.
#[derive(Clone, Copy, Debug, PartialEq, Eq)]
pub struct Next {
    pub ticket: Ticket,
    pub core: CoreNo,
    pub valid: bool,
    pub held: bool,
    pub fill: Fill,
    pub rest: Fill,
}

// A lock unit: a register for each core, and the one that shows the best waiter.
#[derive(Clone, Copy, Debug, PartialEq, Eq)]
pub struct LockUnit {
    pub registers: [Register; CORES],
    pub next: Next,
}

// Where a core stands.
#[derive(Clone, Copy, Debug, PartialEq, Eq)]
pub enum State {
    // No ticket.
    Idle,
    // Waiting at the first unit.
    Waiting,
    // Holding the first unit.
    Holding,
    // Holding the first unit and waiting at the second.
    WaitingSecond,
    // Holding both.
    HoldingBoth,
    // Away in a handler; stands nowhere and keeps its ticket. Only in T.
    Away,
    // Away in a handler, still registered without a flag. Only in D.
    Marked,
    // Away in a handler, registered nowhere, its ticket ended; still names its unit. Only in D.
    Dropped,
}

// One byte with one value, which makes a size even.
#[derive(Clone, Copy, Debug, PartialEq, Eq)]
pub enum Fill {
    Blank,
}

// A core. What its state does not speak of is blank: ticket 0, unit 0.
#[derive(Clone, Copy, Debug, PartialEq, Eq)]
pub struct Core {
    pub own: Ticket,
    pub carried: Ticket,
    // The unit first asked for.
    pub first: UnitNo,
    // The second unit, awaited or held.
    pub second: UnitNo,
    pub state: State,
    pub fill: Fill,
}

// By which rules a block works.
#[derive(Clone, Copy, Debug, PartialEq, Eq)]
pub enum Profile {
    // The two-stage algorithm with inheritance.
    T,
    // The dequeueing method.
    D,
}

// How many cores, first-class units and second-class units a table has, and its profile: what its header gives and
// no step changes.
#[derive(Clone, Copy, Debug, PartialEq, Eq)]
pub struct Counts {
    pub cores: u16,
    pub first: u16,
    pub second: u16,
    pub profile: Profile,
    pub fill: Fill,
}
