// The six steps by name: methods that take the table by value and hand back the next one with what the
// tester must see. Each is the step of its letter, refusals and their order among it.
ghost use Rattle.std.specs.Prelude.{◌≡◌};
ghost use Rattle.block.specs.Steps.{step};

use crate::stepped::Stepped;
use crate::table::Table;
use parts::Step;
use ticket::{CoreNo, UnitNo};

impl Table {
    // R: takes the counter as ticket, enters the unit, waits.
    pub fn request(self, k: CoreNo, u: UnitNo) -> Stepped
        ensures { result ≡ step self (Step.R k u) }
    {
        self.step(Step::R(k, u))
    }

    // N: enters a second-class unit with its own ticket, waits.
    pub fn nest(self, k: CoreNo, u: UnitNo) -> Stepped
        ensures { result ≡ step self (Step.N k u) }
    {
        self.step(Step::N(k, u))
    }

    // P: flag set, now holds it; flag clear, at the second stage it inherits.
    pub fn poll(self, k: CoreNo) -> Stepped
        ensures { result ≡ step self (Step.P k) }
    {
        self.step(Step::P(k))
    }

    // I: gives up every register, carried ticket becomes the own one, away. In D it stays in line, away; with its flag set it is dropped.
    pub fn interrupt(self, k: CoreNo) -> Stepped
        ensures { result ≡ step self (Step.I k) }
    {
        self.step(Step::I(k))
    }

    // C: enters its first unit again with its own ticket, waits. In D it is still in line; one that was dropped requests again.
    pub fn come_back(self, k: CoreNo) -> Stepped
        ensures { result ≡ step self (Step.C k) }
    {
        self.step(Step::C(k))
    }

    // L: gives up every register, ticket ends, idle.
    pub fn release(self, k: CoreNo) -> Stepped
        ensures { result ≡ step self (Step.L k) }
    {
        self.step(Step::L(k))
    }
}
