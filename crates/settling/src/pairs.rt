// The comparators: each pair of registers is judged once, and a core that loses is marked.
ghost use Rattle.std.specs.Prelude.{◌≡◌, ◌≤◌, length};
ghost use Rattle.parts.specs.Fold.{up_to, some};
ghost use Rattle.settling.specs.Line.{is_older};
ghost use Rattle.settling.specs.Pairs.{is_younger, overtakes, met};

use ticket::{Comparison, Ticket, compare};

// The comparators of a core that is in line with the ticket t and each of the first c in line, whose tickets `line` has. Who of
// these loses is marked by its place; whether the core itself does is the answer. Where neither is older (Same and Opposite, which a
// sound table does not meet) both lose.
pub(crate) fn column(line: &[u16], c: usize, t: Ticket, lost: &mut [bool]) -> bool
    requires { (c ≤ length line.now) × (c ≤ length lost.old) }
    ensures { (result ≡ some (overtakes line.now t.0) c) × (lost.new ≡ up_to (met line.now t.0) c lost.old) }
{
    let mut last = false;
    for a in 0..c {
        let y = compare(Ticket(line[a]), t);
        lost[a] |= y != Comparison::Older;
        last |= y != Comparison::Younger;
    }
    last
}
