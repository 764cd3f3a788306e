// Counts in range.
ghost use Rattle.std.specs.Prelude.{◌≡◌};
ghost use Rattle.parts.specs.Range.{in_range};

use crate::kinds::{CORES, Counts, PER_CLASS};
use crate::profile::dequeues;

// Whether counts are in range: a core at least, a first-class unit at least, none of the three above its limit,
// and no second-class unit in D.
pub fn in_range(c: Counts) -> bool
    ensures { result ≡ in_range c }
{
    let cores = c.cores as usize;
    let first = c.first as usize;
    let second = c.second as usize;
    let p = c.profile;
    let classed = !dequeues(p) | (second == 0);
    (1..=CORES).contains(&cores)
        & (1..=PER_CLASS).contains(&first)
        & (second <= PER_CLASS)
        & classed
}
