// In D, before a core gives up its flag, those at the front of the unit's line who are away are dropped: the unit would drop
// them when it settles, and so the step is worked as in T.
ghost use Rattle.std.specs.Prelude.{true, ◌≡◌, ◌≤◌, ◌<◌};
ghost use Rattle.parts.specs.Parts.{cores, units};
ghost use Rattle.block.specs.Table.{Shaped};
ghost use Rattle.block.specs.Sound.{sound};
ghost use Rattle.block.specs.Skipping.{gives_up, gives_way, skips};
ghost use Rattle.block.specs.Planned.{front_of, without};

use crate::table::Table;
use parts::{Core, Counts, Register, State, Step, dequeues, holds, is_away, waits, whose};
use places::{core_place, unit_place};
use settling::{Best, drop_before, front, passed_to, stored};
use ticket::UnitNo;

// Whether a core in this state that the step allows gives up all that it has.
fn gives_up(s: Step, z: State) -> bool
    ensures { result ≡ gives_up s z }
{
    match s {
        Step::I(_) => waits(z),
        Step::L(_) => holds(z),
        Step::R(_, _) | Step::N(_, _) | Step::P(_) | Step::C(_) => false,
    }
}

// Whether the step of core c gives up a flag, in D, while f is away, who is in front of the line there. The core's register there is r.
fn gives_way(s: Step, counts: Counts, c: Core, r: Register, f: Core) -> bool
    ensures { result ≡ gives_way s counts c r f }
{
    let p = counts.profile;
    let k = whose(s);
    let z = c.state;
    let y = f.state;
    dequeues(p) & (k.0 < counts.cores) & gives_up(s, z) & r.flag & is_away(y)
}

impl Table {
    // Whether the step gives up a flag, in D, and whoever is in front of the line there is away.
    fn skips(&self, s: Step) -> bool
        requires { (sound self.now ≡ true) × Shaped self.now }
        ensures { result ≡ skips self.now s }
    {
        let k = core_place(s);
        let at = k.0 as usize;
        let c = self.cores[at];
        let i = unit_place(s, c).0 as usize;
        let w = passed_to(stored(self.units[i].next), k).0 as usize;
        gives_way(
            s,
            self.counts,
            c,
            self.units[i].registers[at],
            self.cores[w],
        )
    }

    // Who is in front once those who are away are dropped, if they are.
    pub(crate) fn front(&self, s: Step) -> Option<Best>
        requires { (sound self.now ≡ true) × Shaped self.now }
        ensures { result ≡ front_of self.now s }
    {
        if dequeues(self.counts.profile) && self.skips(s) {
            let k = whose(s).0 as usize;
            let u = self.cores[k].first.0 as usize;
            Some(front(self.counts.cores, &self.units[u], &self.cores))
        } else {
            None
        }
    }

    // The table with those before it dropped at unit u.
    pub(crate) fn drop_front(&mut self, u: UnitNo, front: Option<Best>)
        requires { (u.0 < units) × (self.old.counts.cores ≤ cores) }
        ensures { self.new ≡ without self.old u front }
    {
        if let Some(first) = front {
            let i = u.0 as usize;
            let d = drop_before(self.counts.cores, first, self.units[i], self.cores);
            let unit = d.unit;
            let all = d.cores;
            self.units[i] = unit;
            self.cores = all;
        }
    }
}
