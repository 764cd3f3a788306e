// Soundness of any table whatsoever.
ghost use Rattle.std.specs.Prelude.{◌≡◌};
ghost use Rattle.parts.specs.Fold.{every};
ghost use Rattle.parts.specs.Parts.{units};
ghost use Rattle.block.specs.Sound.{unit_sound_lem, sound};

use crate::table::Table;
use parts::in_range;
use soundness::{cores_sound, unit_sound};
use ticket::UnitNo;

impl Table {
    // Whether the table is sound.
    pub fn sound(self) -> bool
        ensures { result ≡ sound self }
    {
        let counts = self.counts;
        let counter = self.counter;
        let all = self.cores;
        in_range(counts) & cores_sound(counts, counter, all) & self.units_sound()
    }

    fn units_sound(self) -> bool
        ensures { result ≡ every (unit_sound_lem self) units }
    {
        let mut ok = true;
        for (i, x) in self.units.iter().enumerate() {
            ok &= unit_sound(self.cores, UnitNo(i as u16), *x);
        }
        ok
    }
}
