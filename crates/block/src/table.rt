// The table of cores, lock units and the ticket counter.
//
// What lies in an array has its fields from wide to narrow and no gap: a table with a gap cannot be
// copied in blocks.
use parts::{CORES, Core, Counts, LockUnit, UNITS};
use ticket::Ticket;

#[derive(Clone, Copy)]
pub struct Table {
    pub units: [LockUnit; UNITS],
    pub cores: [Core; CORES],
    pub counts: Counts,
    pub counter: Ticket,
}
