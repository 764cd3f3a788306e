// A table as it stands in a case, and whether it is sound.
ghost use Rattle.std.specs.Prelude.{◌<◌};
ghost use Rattle.parts.specs.Parts.{cores};

use crate::bytes::{byte, half, letter, profile};
use crate::next::next;
use crate::register::register;
use crate::text::Answers;
use block::Table;
use parts::{CORES, Core, Counts, Fill, LockUnit, State, UNITS, empty_unit, registered};
use ticket::{CoreNo, Ticket, UnitNo};

// A case's bytes before its cores: the letter, the counts and the counter.
const HEAD: usize = 9;

// A core's bytes, a register's, and a unit's: its registers and its next in line.
const CORE: usize = 9;

const REGISTER: usize = 4;

const UNIT: usize = REGISTER * CORES + 6;

// Where the units of a table stand, and where those of an image to be written stand.
const TABLE_UNITS: usize = HEAD + CORE * CORES;

pub(crate) const IMAGE_UNITS: usize = HEAD;

// The bytes of a case that is a table, and of one that is an image to be written.
pub(crate) const TABLE_SIZE: usize = TABLE_UNITS + UNIT * UNITS;

pub(crate) const IMAGE_SIZE: usize = IMAGE_UNITS + UNIT * UNITS;

pub(crate) fn answer(s: &[u8], a: &mut Answers<'_>) {
    a.head(letter(s), u16::from(table(s).sound()));
}

// The table, which stands first in a case.
pub(crate) fn table(s: &[u8]) -> Table {
    Table {
        units: units(s, TABLE_UNITS),
        cores: cores(s),
        counts: counts(s),
        counter: Ticket(half(s, 7)),
    }
}

// The counts, which stand first in a case; its letter gives the profile.
pub(crate) fn counts(s: &[u8]) -> Counts {
    Counts {
        cores: half(s, 1),
        first: half(s, 3),
        second: half(s, 5),
        profile: profile(s),
        fill: Fill::Blank,
    }
}

fn cores(s: &[u8]) -> [Core; CORES] {
    std::array::from_fn(|k| core(s, k))
}

// Core k, of those that stand after the counts and the counter.
fn core(s: &[u8], k: usize) -> Core
    requires { k < cores }
{
    let at = HEAD + CORE * k;
    Core {
        own: Ticket(half(s, at)),
        carried: Ticket(half(s, at + 2)),
        first: UnitNo(half(s, at + 4)),
        second: UnitNo(half(s, at + 6)),
        state: state(byte(s, at + 8)),
        fill: Fill::Blank,
    }
}

fn state(n: u8) -> State {
    match n {
        0 => State::Idle,
        1 => State::Waiting,
        2 => State::Holding,
        3 => State::WaitingSecond,
        4 => State::HoldingBoth,
        5 => State::Away,
        6 => State::Marked,
        _ => State::Dropped,
    }
}

// Sixteen units from a place on.
pub(crate) fn units(s: &[u8], from: usize) -> [LockUnit; UNITS]
    requires { from < 4096 }
{
    std::array::from_fn(|u| unit(s, from + UNIT * u))
}

// The unit at a place: its registers, and after them the next in line.
fn unit(s: &[u8], at: usize) -> LockUnit
    requires { at < 16384 }
{
    let mut x = registers(s, at);
    x.next = next(s, at + REGISTER * CORES);
    x
}

// A unit with the registers at a place. They are set one by one, since `registered` alone changes a unit's.
fn registers(s: &[u8], at: usize) -> LockUnit
    requires { at < 16384 }
{
    let mut x = empty_unit();
    for k in 0..CORES as u16 {
        let r = register(s, at + REGISTER * usize::from(k));
        x = registered(x, CoreNo(k), r);
    }
    x
}
