// A unit changed where it stands.
ghost use Rattle.std.specs.Prelude.{◌≡◌, ◌≤◌, ◌<◌};
ghost use Rattle.parts.specs.Parts.{cores};
ghost use Rattle.settling.specs.Line.{Within};
ghost use Rattle.settling.specs.Settle.{changed};

use crate::settle::{Change, passed_to, repicked, with_flag};
use parts::LockUnit;
use ticket::CoreNo;

// Seam: core k changes so at the unit. Where another is to be next, the flag is passed on first, and the pairs are gone through.
pub fn change(x: &mut LockUnit, n: u16, k: CoreNo, c: Change)
    requires { (n ≤ cores) × (k.0 < cores) × Within c.winner }
    ensures { x.new ≡ changed n k c x.old }
{
    x.registers[k.0 as usize] = c.register;
    x.next = c.next;
    if c.repick {
        let w = passed_to(c.winner, k).0 as usize;
        x.registers[w] = with_flag(x.registers[w], c.winner);
        x.next = repicked(n, *x);
    }
}
