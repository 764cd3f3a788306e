// What a state says of its core: six tests tell the states apart, the others follow from them.
ghost use Rattle.std.specs.Prelude.{◌≡◌};
ghost use Rattle.parts.specs.State.{is_idle_lem, waits, two_stage_lem, is_away, is_marked, is_dropped, is_live_lem, stands, holds, holds_one, holds_both, holds_first, unserved};

use crate::kinds::State;

// No ticket.
pub fn is_idle(s: State) -> bool
    ensures { result ≡ is_idle_lem s }
{
    s == State::Idle
}

// Waiting, at either stage.
pub fn waits(s: State) -> bool
    ensures { result ≡ waits s }
{
    matches!(s, State::Waiting | State::WaitingSecond)
}

// A second unit is awaited or held.
pub fn two_stage(s: State) -> bool
    ensures { result ≡ two_stage_lem s }
{
    matches!(s, State::WaitingSecond | State::HoldingBoth)
}

// In a handler.
pub fn is_away(s: State) -> bool
    ensures { result ≡ is_away s }
{
    matches!(s, State::Away | State::Marked | State::Dropped)
}

// In a handler, and still registered.
pub fn is_marked(s: State) -> bool
    ensures { result ≡ is_marked s }
{
    s == State::Marked
}

// In a handler, and its ticket ended.
pub fn is_dropped(s: State) -> bool
    ensures { result ≡ is_dropped s }
{
    s == State::Dropped
}

// Its ticket is live.
pub fn is_live(s: State) -> bool
    ensures { result ≡ is_live_lem s }
{
    !is_idle(s) & !is_dropped(s)
}

// Registered at the first unit: waiting, holding, or marked away.
pub fn stands(s: State) -> bool
    ensures { result ≡ stands s }
{
    !is_idle(s) & (!is_away(s) | is_marked(s))
}

// Holding one or both, and not waiting.
pub fn holds(s: State) -> bool
    ensures { result ≡ holds s }
{
    !is_idle(s) & !is_away(s) & !waits(s)
}

// Holding one unit and not waiting.
pub fn holds_one(s: State) -> bool
    ensures { result ≡ holds_one s }
{
    holds(s) & !two_stage(s)
}

// Holding both.
pub fn holds_both(s: State) -> bool
    ensures { result ≡ holds_both s }
{
    holds(s) & two_stage(s)
}

// Holding the first unit, whatever of the second.
pub fn holds_first(s: State) -> bool
    ensures { result ≡ holds_first s }
{
    two_stage(s) | holds(s)
}

// Waiting for the first unit, or away from it.
pub fn unserved(s: State) -> bool
    ensures { result ≡ unserved s }
{
    is_away(s) | (waits(s) & !two_stage(s))
}
