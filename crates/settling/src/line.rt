// Who stands in line at a unit, and who is next.
ghost use Rattle.std.specs.Prelude.{cond, ◌≡◌, ◌≤◌, length};
ghost use Rattle.parts.specs.Fold.{up_to};
ghost use Rattle.parts.specs.Parts.{cores};
ghost use Rattle.settling.specs.Line.{in_line, next, stored};
ghost use Rattle.settling.specs.Pairs.{kept};
ghost use Rattle.settling.specs.Best.{Nobody, Won};

use crate::pairs::column;
use parts::{CORES, LockUnit, Next, Register};
use ticket::{CoreNo, Ticket};

// The core that is next in line at a unit, and its ticket.
pub type Best = Option<(CoreNo, Ticket)>;

// Seam: who a unit that shows v has next in line. A core that no table has is nobody.
pub fn stored(v: Next) -> Best
    ensures { result ≡ stored v }
{
    let shown = v.valid & (usize::from(v.core.0) < CORES);
    shown.then_some((v.core, v.ticket))
}

// Whether a register stands in line: valid, with its flag clear.
pub(crate) fn in_line(r: Register) -> bool
    ensures { result ≡ in_line r }
{
    r.valid & !r.flag
}

// Of the first c in line, `who` at their places, the one that did not lose.
fn unbeaten(who: &[u16], line: &[u16], c: usize, lost: &[bool]) -> Best
    requires { (c ≤ length who.now) × (c ≤ length line.now) × (c ≤ length lost.now) }
    ensures { result ≡ up_to (kept who.now line.now lost.now) c Nobody }
{
    let mut best = None;
    for a in 0..c {
        if !lost[a] {
            best = Some((CoreNo(who[a]), Ticket(line[a])));
        }
    }
    best
}

// Seam: the core next in line. Of the first n that stand in line, it has the oldest ticket: it loses to nobody. Each that stands in line is
// compared with those before it there.
pub fn next_of(n: u16, x: LockUnit) -> Best
    requires { n ≤ cores }
    ensures { result ≡ next n x }
{
    let mut who = [0; CORES];
    let mut line = [0; CORES];
    let mut lost = [false; CORES];
    let mut c = 0;
    for j in 0..n {
        let r = x.registers[usize::from(j)];
        if in_line(r) {
            lost[c] = column(&line, c, r.ticket, &mut lost);
            who[c] = j;
            line[c] = r.ticket.0;
            c += 1;
        }
    }
    unbeaten(&who, &line, c, &lost)
}
