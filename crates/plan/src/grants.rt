// The grants of the units that a step touched.
ghost use Rattle.std.specs.Prelude.{◌≡◌, ◌++◌};
ghost use Rattle.parts.specs.Answer.{packed};
ghost use Rattle.settling.specs.Line.{won};

use parts::Grants;
use settling::Best;
use ticket::{Grant, UnitNo};

// The grant of a unit that settled.
pub(crate) fn one_grant(u: UnitNo, w: Best) -> Grants
    ensures { result ≡ packed (won u.0 w) }
{
    match w {
        None => Grants::None,
        Some((k, _)) => Grants::One(Grant::of(u, k)),
    }
}

// The grants of two units that settled, in this order.
pub(crate) fn two_grants(u: UnitNo, w: Best, v: UnitNo, x: Best) -> Grants
    ensures { result ≡ packed (won u.0 w ++ won v.0 x) }
{
    match (w, x) {
        (None, _) => one_grant(v, x),
        (_, None) => one_grant(u, w),
        (Some((k, _)), Some((j, _))) => Grants::Two(Grant::of(u, k), Grant::of(v, j)),
    }
}
