// What is due at a line after the header.
ghost use Rattle.std.specs.Prelude.{◌≡◌};
ghost use Rattle.stops.specs.Due.{due, header_stop, line_stop};

use crate::run::{STEPS_MOST, Stop};
use headers::BadHeader;
use lines::BadLine;
use parts::Step;

// The line at a place after the header: a step to work, with the place after its line; or why the run
// stops there. Room is asked for later.
pub type Todo = Result<(Step, usize), Stop>;

// A run stops at a bad line, for what is bad in it.
impl From<BadLine> for Stop {
    ghost from_gives = { λ b w. w ≡ line_stop b };

    fn from(b: BadLine) -> Stop {
        match b {
            BadLine::Malformed => Stop::Malformed,
            BadLine::Unfinished => Stop::Unfinished,
        }
    }
}

// And where no header stands, for what stands there.
impl From<BadHeader> for Stop {
    ghost from_gives = { λ b w. w ≡ header_stop b };

    fn from(b: BadHeader) -> Stop {
        match b {
            BadHeader::Malformed => Stop::BadHeader,
            BadHeader::Unfinished => Stop::Unfinished,
        }
    }
}

// Finished, 24, 22, 21, 16, in this order.
pub fn due(script: &[u8], place: usize, steps: u32, fit: bool) -> Todo
    ensures { result ≡ due script.now place steps fit }
{
    if script.len() <= place {
        return Err(Stop::Finished);
    }
    if STEPS_MOST <= steps {
        return Err(Stop::TooMany);
    }
    let step = script::read_step(script, place)?.ok_or(Stop::Finished)?;
    // A step is worked on a table that is fit.
    if !fit {
        return Err(Stop::Unsound);
    }
    Ok(step)
}
