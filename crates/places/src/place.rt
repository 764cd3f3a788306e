// The places that a step reads and writes: of its core, and of the units that it touches. A number past an
// array has the place 0, and is refused.
ghost use Rattle.std.specs.Prelude.{◌≡◌, cond, ltb};
ghost use Rattle.places.specs.Places.{core_place, in_units, unit_place, other_place};

use parts::{CORES, Core, Step, UNITS, two_stage, whose};
use ticket::{CoreNo, UnitNo};

// The number itself, below n; past that, 0.
fn below(i: u16, n: usize) -> u16
    ensures { result ≡ cond (ltb i n) i 0 }
{
    if (i as usize) < n { i } else { 0 }
}

// Seam: the core that a step names; past the array, core 0.
pub fn core_place(s: Step) -> CoreNo
    ensures { result ≡ core_place s }
{
    CoreNo(below(whose(s).0, CORES))
}

// The unit itself; past the array, unit 0.
fn in_units(u: UnitNo) -> UnitNo
    ensures { result ≡ in_units u }
{
    UnitNo(below(u.0, UNITS))
}

// Seam: the unit that a step names, or else the first unit of its core, which is c.
pub fn unit_place(s: Step, c: Core) -> UnitNo
    ensures { result ≡ unit_place s c }
{
    match s {
        Step::R(_, u) | Step::N(_, u) => in_units(u),
        Step::P(_) | Step::I(_) | Step::C(_) | Step::L(_) => in_units(c.first),
    }
}

// Seam: the core's second unit, if it has one; else the same.
pub fn other_place(s: Step, c: Core) -> UnitNo
    ensures { result ≡ other_place s c }
{
    if two_stage(c.state) {
        in_units(c.second)
    } else {
        unit_place(s, c)
    }
}
