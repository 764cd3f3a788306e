// What a profile has: its states.
ghost use Rattle.std.specs.Prelude.{◌≡◌};
ghost use Rattle.parts.specs.Profile.{dequeues, suits};

use crate::kinds::{Profile, State};
use crate::state::{is_away, is_dropped, is_marked, two_stage};

// Whether the profile is D.
pub fn dequeues(p: Profile) -> bool
    ensures { result ≡ dequeues p }
{
    p == Profile::D
}

// Whether the profile has the state: in T nobody is marked or dropped, in D nobody has a second unit or keeps a ticket
// while it stands nowhere.
pub fn suits(p: Profile, s: State) -> bool
    ensures { result ≡ suits p s }
{
    match p {
        Profile::T => !is_marked(s) & !is_dropped(s),
        Profile::D => !two_stage(s) & (!is_away(s) | is_marked(s) | is_dropped(s)),
    }
}
