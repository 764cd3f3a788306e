// 15: whether a live ticket is stretched, asked of the cores where they stand, or of their tickets kept apart.
ghost use Rattle.std.specs.Prelude.{◌≡◌, ◌≤◌, length};
ghost use Rattle.ticket.specs.Order.{compare};
ghost use Rattle.refusals.specs.Judge.{far, live, stretched};
ghost use Rattle.refusals.specs.Tickets.{stretched_by, Recent, asks, asked};

use parts::{Core, Counts, Step, is_dropped};
use ticket::{Ticket, behind};

// Whether the core's ticket is live.
fn is_live(c: Core) -> bool
    ensures { result ≡ live c }
{
    parts::is_live(c.state)
}

// 15: of the first n cores some ticket is live and lies half the circle or more behind the counter. In a sound table none lies further
// behind, so the opposite ticket alone is looked for; and hardly a core has it, so its state is looked at last.
fn stretched(n: usize, counter: Ticket, all: &[Core]) -> bool
    requires { (n ≤ length all.now) × Recent counter all.now n }
    ensures { result ≡ stretched counter all.now n }
{
    let opposite = behind(counter, Ticket(32768));
    for k in 0..n {
        let c = all[k];
        if c.own.0 == opposite && is_live(c) {
            return true;
        }
    }
    false
}

// Whether a step of the core c takes a ticket.
fn asks(s: Step, c: Core) -> bool
    ensures { result ≡ asks s c }
{
    match s {
        Step::R(_, _) => true,
        Step::C(_) => is_dropped(c.state),
        Step::N(_, _) | Step::P(_) | Step::I(_) | Step::L(_) => false,
    }
}

// Seam: 15 of the cores that are counted, those of a sound table, for a step of the core c whose verdict asks it. The cores past the count
// are not looked at.
pub fn late_among(s: Step, c: Core, counts: Counts, counter: Ticket, all: &[Core]) -> bool
    requires { (counts.cores ≤ length all.now) × Recent counter all.now counts.cores }
    ensures { result ≡ asked s c (stretched counter all.now counts.cores) }
{
    asks(s, c) && stretched(counts.cores as usize, counter, all)
}

// Whether a ticket lies 32,768 or more behind the counter. At 32,768 it is opposite; above that it reads as one still to come.
#[tactic(auto, using(crate::proofs::Far::far_behind))]
fn lies_far(t: Ticket, counter: Ticket) -> bool
    ensures { result ≡ far (compare t.0 counter.0) }
{
    32768 <= behind(counter, t)
}

// The same of tickets that are kept apart from their cores: which are live, and the own ticket of each core. All are looked at, without
// a branch, so that the processor takes several at a time.
fn stretched_by(n: usize, counter: Ticket, lives: &[bool], owns: &[u16]) -> bool
    requires { (n ≤ length lives.now) × (n ≤ length owns.now) }
    ensures { result ≡ stretched_by counter lives.now owns.now n }
{
    let mut any = false;
    for k in 0..n {
        any |= lives[k] & lies_far(Ticket(owns[k]), counter);
    }
    any
}

// Seam: 15 of the tickets that are counted, kept apart from their cores, for a step of the core c whose verdict asks it.
pub fn late_for(
    s: Step,
    c: Core,
    counts: Counts,
    counter: Ticket,
    lives: &[bool],
    owns: &[u16],
) -> bool
    requires { (counts.cores ≤ length lives.now) × (counts.cores ≤ length owns.now) }
    ensures { result ≡ asked s c (stretched_by counter lives.now owns.now counts.cores) }
{
    asks(s, c) && stretched_by(counts.cores as usize, counter, lives, owns)
}
