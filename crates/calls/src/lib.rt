// What one call of the translation is, and what holds of every call. It keeps what it does not answer, goes on where it stopped, and a
// script in pieces is the script in one.
//
// Seam, for the walks over a text's lines: `fresh_run`.
#![tactic(auto)]

ghost use Rattle.std.specs.Prelude.{◌≡◌};
ghost use Rattle.building.specs.Build.{build};
ghost use Rattle.calls.specs.Placed.{run_at};

use building::build;
use parts::Counts;
use stops::Run;
use ticket::Ticket;

// Seam: the run on the fresh table, after the header's line.
pub fn fresh_run(place: usize, wrote: usize, counts: Counts, counter: Ticket, steps: u32) -> Run
    ensures { result ≡ run_at place wrote (build counts counter).table steps }
{
    Run {
        place,
        wrote,
        table: build(counts, counter).table,
        steps,
        headed: true,
    }
}
