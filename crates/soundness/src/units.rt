// The clauses of one unit: of its registers against any cores whatsoever.
ghost use Rattle.std.specs.Prelude.{◌≡◌, get_or};
ghost use Rattle.parts.specs.Fold.{every, count};
ghost use Rattle.parts.specs.Parts.{cores, idle, register_in};
ghost use Rattle.soundness.specs.Agreement.{unit_sound_lem, agrees, flagless, shows, is_blank, one_flag, any_valid};

use parts::{
    CORES, Core, LockUnit, Register, State, holds_both, holds_first, is_marked, stands, two_stage,
};
use settling::shows_next;
use ticket::{Ticket, UnitNo};

// The clauses of unit u, which is x.
#[tactic(auto, unfolding(crate::specs::Agreement::unit_sound_lem))]
pub fn unit_sound(all: [Core; CORES], u: UnitNo, x: LockUnit) -> bool
    ensures { result ≡ unit_sound_lem all u.0 x }
{
    let n = CORES as u16;
    agree(all, u, x) & one_flag(x) & shows_next(n, x)
}

// The registers of unit u, which is x, agree with every core's state.
fn agree(all: [Core; CORES], u: UnitNo, x: LockUnit) -> bool
    ensures { result ≡ every (λ k. agrees (get_or all k idle) u.0 (register_in x k)) cores }
{
    let mut ok = true;
    for k in 0..CORES {
        ok &= agrees(all[k], u, x.registers[k]);
    }
    ok
}

// The register of core c at unit u is what c's state asks for.
fn agrees(c: Core, u: UnitNo, r: Register) -> bool
    ensures { result ≡ agrees c u.0 r }
{
    let s = c.state;
    if stands(s) & (u == c.first) {
        flagless(s, r) & shows(r, c.own, holds_first(s))
    } else if two_stage(s) & (u == c.second) {
        shows(r, c.carried, holds_both(s))
    } else {
        is_blank(r)
    }
}

// A core that is marked away has no flag in its register.
fn flagless(s: State, r: Register) -> bool
    ensures { result ≡ flagless s r }
{
    !is_marked(s) | !r.flag
}

// A valid register with this ticket, its flag set if the unit is held.
fn shows(r: Register, n: Ticket, held: bool) -> bool
    ensures { result ≡ shows r n held }
{
    r.valid & (r.ticket == n) & (r.flag | !held)
}

// A register that nobody stands in: ticket 0, invalid, no flag.
fn is_blank(r: Register) -> bool
    ensures { result ≡ is_blank r }
{
    (r.ticket.0 == 0) & !r.valid & !r.flag
}

// A unit has one flag if any register is valid and none otherwise.
fn one_flag(x: LockUnit) -> bool
    ensures { result ≡ one_flag x }
{
    flags(x) == usize::from(any_valid(x))
}

// How many flags a unit has set.
fn flags(x: LockUnit) -> usize
    ensures { result ≡ count (λ k. (register_in x k).flag) cores }
{
    let mut n = 0;
    for r in x.registers {
        n += usize::from(r.flag);
    }
    n
}

fn any_valid(x: LockUnit) -> bool
    ensures { result ≡ any_valid x }
{
    let mut any = false;
    for r in x.registers {
        any |= r.valid;
    }
    any
}
