// A step planned on a table that is lent, and the plan put back where the table stands. A walk asks between the two whether what the
// step shows fits, so that a step that is not taken changes nothing.
ghost use Rattle.std.specs.Prelude.{true, ◌≡◌, ◌≤◌, ◌<◌};
ghost use Rattle.parts.specs.Parts.{cores, units};
ghost use Rattle.settling.specs.Line.{Within};
ghost use Rattle.refusals.specs.Tickets.{asked};
ghost use Rattle.block.specs.Table.{Shaped};
ghost use Rattle.block.specs.Sound.{sound};
ghost use Rattle.block.specs.Steps.{late, on_sound};
ghost use Rattle.block.specs.PutBack.{with_change, with_units};
ghost use Rattle.block.specs.Planned.{read_of, planned};

use crate::table::Table;
use parts::{Core, Step};
use places::{core_place, other_place, unit_place};
use plan::{Part, Plan, plan_step};
use refusals::late_among;
use settling::{Best, Change, change, shown_as};
use ticket::{CoreNo, UnitNo};

// A step and its plan, its core and the units at its places; and in D, if the step gives up a flag while whoever is in front of the line
// there is away, who is in front once those who are away are dropped.
#[derive(Clone, Copy)]
pub struct Planned {
    pub step: Step,
    pub plan: Plan,
    pub core: CoreNo,
    pub first: UnitNo,
    pub second: UnitNo,
    pub front: Option<Best>,
}

impl Table {
    // What a step of core k reads of unit u: as it will be, if those in front are dropped.
    fn read(&self, u: UnitNo, k: CoreNo, front: Option<Best>) -> Part
        requires { (u.0 < units) × (k.0 < cores) }
        ensures { result ≡ read_of self.now u k front }
    {
        let i = u.0 as usize;
        let r = self.units[i].registers[k.0 as usize];
        let v = self.units[i].next;
        match front {
            None => Part::of(r, v),
            Some(b) => Part::of(r, shown_as(b, v.held)),
        }
    }

    // Whether a live ticket is stretched, if the verdict of a step of the core c asks it.
    #[tactic(auto, using(crate::proofs::Asking::recent_all))]
    fn late(&self, s: Step, c: Core) -> bool
        requires { (self.now.counts.cores ≤ cores) × (sound self.now ≡ true) }
        ensures { result ≡ asked s c (late self.now) }
    {
        late_among(s, c, self.counts, self.counter, &self.cores)
    }

    // Seam: the step planned on a table known to be sound.
    pub fn planned(&self, s: Step) -> Planned
        requires { (sound self.now ≡ true) × Shaped self.now }
        ensures { result ≡ planned self.now s }
    {
        let core = core_place(s);
        let c = self.cores[core.0 as usize];
        let first = unit_place(s, c);
        let second = other_place(s, c);
        let front = self.front(s);
        let x = self.read(first, core, front);
        let y = self.read(second, core, front);
        let late = self.late(s, c);
        Planned {
            step: s,
            plan: plan_step(s, self.counts, self.counter, late, c, x, y),
            core,
            first,
            second,
            front,
        }
    }

    // Core k changed so at unit u.
    fn change_at(&mut self, k: CoreNo, u: UnitNo, c: Change)
        requires { (self.old.counts.cores ≤ cores) × (k.0 < cores) × (u.0 < units) × Within c.winner }
        ensures { self.new ≡ with_change self.old k u c }
    {
        change(&mut self.units[u.0 as usize], self.counts.cores, k, c);
    }

    // The units of a plan put back: j before i, since where both are the same the second stays as it is.
    fn put_units(&mut self, k: CoreNo, i: UnitNo, j: UnitNo, p: &Plan)
        requires { (self.old.counts.cores ≤ cores) × (k.0 < cores) × (i.0 < units) × (j.0 < units) × Within p.now.first.winner × Within p.now.second.winner }
        ensures { self.new ≡ with_units self.old k i j p.now }
    {
        if p.moves {
            self.change_at(k, j, p.second);
            self.change_at(k, i, p.first);
        }
    }

    // Seam: the plan of a step put back.
    pub fn put_back(&mut self, q: &Planned)
        requires { (sound self.old ≡ true) × Shaped self.old × (q.now ≡ planned self.old q.now.step) }
        ensures { self.new ≡ (on_sound self.old q.now.step).table }
    {
        self.drop_front(q.first, q.front);
        self.put_units(q.core, q.first, q.second, &q.plan);
        self.cores[q.core.0 as usize] = q.plan.core;
        self.counter = q.plan.counter;
    }
}
