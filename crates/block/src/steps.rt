// The steps of a table.
ghost use Rattle.std.specs.Prelude.{true, ◌≡◌};
ghost use Rattle.block.specs.Sound.{sound};
ghost use Rattle.block.specs.Steps.{on_sound, step};

use crate::stepped::{Stepped, refused};
use crate::table::Table;
use parts::{Answer, Step};

impl Table {
    // One step. A table that is not sound is refused with 16.
    pub fn step(self, s: Step) -> Stepped
        ensures { result ≡ step self s }
    {
        if self.sound() {
            self.step_sound(s)
        } else {
            refused(self, Answer::Unsound)
        }
    }

    // Seam: one step of a table known to be sound, which is not checked again.
    pub fn step_sound(mut self, s: Step) -> Stepped
        requires { sound self ≡ true }
        ensures { result ≡ on_sound self s }
    {
        let q = self.planned(s);
        self.put_back(&q);
        Stepped {
            table: self,
            answer: q.plan.answer,
            ticket: q.plan.ticket,
            grants: q.plan.grants,
        }
    }
}
