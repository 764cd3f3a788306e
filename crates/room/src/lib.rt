// The bytes to set aside for the output of a script, told before it is translated.
//
// Every public function is an entry: none has a `requires`.
#![tactic(auto)]

ghost use Rattle.std.specs.Prelude.{◌≡◌, ◌≤◌};
ghost use Rattle.stops.specs.Run.{steps_most};
ghost use Rattle.room.specs.Room.{workable, room_for};

use expected::EXPECTED_MOST;
use lines::LINE_MOST;
use stops::STEPS_MOST;

// Of so many step lines those that can be worked: no more than a run can have.
fn workable(steps: u64) -> u64
    ensures { (result ≡ workable steps) × (result ≤ steps_most) }
{
    steps.min(u64::from(STEPS_MOST))
}

// The bytes to set aside for a script with so many step lines.
pub fn room_for(steps: u64) -> u64
    ensures { result ≡ room_for steps }
{
    LINE_MOST as u64 + EXPECTED_MOST as u64 * workable(steps)
}
