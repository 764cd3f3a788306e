// The order of tickets: how far one lies behind another, the comparison, and the counter's step.
ghost use Rattle.std.specs.Prelude.{◌≡◌};
ghost use Rattle.ticket.specs.Kinds.{ticket};
ghost use Rattle.ticket.specs.Order.{behind, compare, after};

use crate::kinds::Ticket;
use std::fmt::{self, Display, Formatter, Write};

// What the first of two tickets is, seen from the second.
#[derive(Clone, Copy, Debug, PartialEq, Eq)]
pub enum Comparison {
    Older,
    Younger,
    Same,
    // Exactly half the circle apart: neither is older, and neither younger.
    Opposite,
}

// Its word, as programs write it.
impl Display for Comparison {
    fn fmt<W: Write>(&self, f: &mut Formatter<W>) -> fmt::Result {
        f.write_str(match self {
            Comparison::Older => "older",
            Comparison::Younger => "younger",
            Comparison::Same => "same",
            Comparison::Opposite => "opposite",
        })
    }
}

// How far `b` lies behind `a`: their difference, cut to sixteen bits.
pub fn behind(a: Ticket, b: Ticket) -> u16
    ensures { result ≡ behind a.0 b.0 }
{
    std::num::wrapping_sub_u16(a.0, b.0)
}

// What `a` is, seen from `b`: by their difference, after the cut.
#[tactic(auto, using(crate::proofs::Laws::of_older, crate::proofs::Laws::of_opposite, crate::proofs::Laws::of_same, crate::proofs::Laws::of_younger))]
pub fn compare(a: Ticket, b: Ticket) -> Comparison
    ensures { result ≡ compare a.0 b.0 }
{
    let d = behind(a, b);
    if d > 32768 {
        return Comparison::Older;
    }
    if d == 32768 {
        return Comparison::Opposite;
    }
    if d == 0 {
        Comparison::Same
    } else {
        Comparison::Younger
    }
}

// The counter's step: after 65,535 comes 0.
pub fn after(t: Ticket) -> Ticket
    ensures { result ≡ ticket (after t.0) }
{
    Ticket(std::num::wrapping_add_u16(t.0, 1))
}
