// The clauses of the cores: of any counts, counter and cores whatsoever.
ghost use Rattle.std.specs.Prelude.{◌≡◌, ◌<◌, get_or};
ghost use Rattle.parts.specs.Fold.{every, some};
ghost use Rattle.parts.specs.Parts.{cores, idle};
ghost use Rattle.soundness.specs.Sound.{core_sound, within, suited, idle_blank, dropped_blank, named, names, half_behind_lem, recent, differ, reads_older_lem, carries, lends};

use parts::{CORES, Core, Counts, is_dropped, is_idle, is_live, suits, two_stage, unserved};
use ticket::{Comparison, CoreNo, Ticket, behind, compare};

// Whether every core is sound.
pub fn cores_sound(counts: Counts, counter: Ticket, all: [Core; CORES]) -> bool
    ensures { result ≡ every (core_sound counts counter all) cores }
{
    let mut ok = true;
    for i in 0..CORES {
        ok &= core_sound(counts, counter, all, CoreNo(i as u16));
    }
    ok
}

// The clauses of core k.
#[tactic(auto, unfolding(crate::specs::Sound::core_sound))]
fn core_sound(counts: Counts, counter: Ticket, all: [Core; CORES], k: CoreNo) -> bool
    requires { k.0 < cores }
    ensures { result ≡ core_sound counts counter all k.0 }
{
    let c = all[k.0 as usize];
    within(counts, k, c)
        & suited(counts, c)
        & idle_blank(c)
        & dropped_blank(c)
        & named(counts, c)
        & recent(counter, c)
        & apart(all, k, c)
        & carries(all, c)
}

// A core past the count is idle.
fn within(counts: Counts, k: CoreNo, c: Core) -> bool
    ensures { result ≡ within counts k.0 c }
{
    (k.0 < counts.cores) | is_idle(c.state)
}

// The table's profile has the core's state.
fn suited(counts: Counts, c: Core) -> bool
    ensures { result ≡ suited counts c }
{
    suits(counts.profile, c.state)
}

// An idle core has ticket 0, and names no unit.
fn idle_blank(c: Core) -> bool
    ensures { result ≡ idle_blank c }
{
    !is_idle(c.state) | ((c.own.0 == 0) & (c.first.0 == 0))
}

// A dropped core has ticket 0; it still names its unit.
fn dropped_blank(c: Core) -> bool
    ensures { result ≡ dropped_blank c }
{
    !is_dropped(c.state) | (c.own.0 == 0)
}

// The units that a core names are in the table, and of the right classes.
fn named(counts: Counts, c: Core) -> bool
    ensures { result ≡ named counts c }
{
    is_idle(c.state) | names(counts, c, two_stage(c.state))
}

// The same of a core with a ticket, and with two units or one.
fn names(counts: Counts, c: Core, two: bool) -> bool
    ensures { result ≡ names counts c two }
{
    let a = c.first.0 as u32;
    let b = c.second.0 as u32;
    let first = counts.first as u32;
    let all = first + counts.second as u32;
    if two {
        (a < first) & (first <= b) & (b < all)
    } else {
        a < all
    }
}

// Whether a ticket that compares so with the counter lies 1 to 32,768 behind it.
fn half_behind(x: Comparison) -> bool
    ensures { result ≡ half_behind_lem x }
{
    // An older one lies 1 to 32,767 behind, and an opposite one 32,768. The same one is what the counter shows, and still to be issued.
    matches!(x, Comparison::Older | Comparison::Opposite)
}

// The own ticket, if it is live, lies 1 to 32,768 behind the counter.
fn recent(counter: Ticket, c: Core) -> bool
    ensures { result ≡ recent counter c }
{
    !is_live(c.state) | half_behind(compare(c.own, counter))
}

// No other core has the ticket of core k, which is c.
fn apart(all: [Core; CORES], k: CoreNo, c: Core) -> bool
    ensures { result ≡ every (λ j. differ k.0 c j (get_or all j idle)) cores }
{
    let mut ok = true;
    for (j, d) in all.iter().enumerate() {
        ok &= differ(k, c, CoreNo(j as u16), *d);
    }
    ok
}

// Cores k and j, which are c and d, are the same, or one of their tickets is not live, or they differ: on the circle
// the one does not lie 0 behind the other.
fn differ(k: CoreNo, c: Core, j: CoreNo, d: Core) -> bool
    ensures { result ≡ differ k.0 c j.0 d }
{
    (k == j) | !is_live(c.state) | !is_live(d.state) | (behind(c.own, d.own) != 0)
}

// Whether a carried ticket that compares so with the own one reads older.
fn reads_older(x: Comparison) -> bool
    ensures { result ≡ reads_older_lem x }
{
    // A later ticket is never inherited, and the same one is the own one. Of two that are opposite both would be live, and live tickets lie in
    // one half of the circle: the window refuses such a table.
    x == Comparison::Older
}

// The carried ticket is the own one, or at the second stage an inherited one.
fn carries(all: [Core; CORES], c: Core) -> bool
    ensures { result ≡ carries all c }
{
    let same = c.carried == c.own;
    if two_stage(c.state) {
        same | (lent(all, c) & reads_older(compare(c.carried, c.own)))
    } else {
        same & (c.second.0 == 0)
    }
}

// Some core waits for or is away from c's first unit, with c's carried ticket for its own.
fn lent(all: [Core; CORES], c: Core) -> bool
    ensures { result ≡ some (λ j. lends c (get_or all j idle)) cores }
{
    let mut any = false;
    for d in all {
        any |= lends(c, d);
    }
    any
}

// c's carried ticket belongs to d, which waits for or is away from c's first unit.
fn lends(c: Core, d: Core) -> bool
    ensures { result ≡ lends c d }
{
    unserved(d.state) & (d.first == c.first) & (d.own == c.carried)
}
