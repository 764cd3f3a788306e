// What a field behind the step part shows, and what the rules give there.
ghost use Rattle.std.specs.Prelude.{◌≡◌, [], ◌∷◌, ◌≤◌};
ghost use Rattle.loglines.specs.Log.{grants_given, given_by, seen_at};

use parts::{Answer, Grants, number};
use ticket::{Grant, Ticket};

// A field's number, if there is such a field.
pub type Seen = Option<u16>;

// The first field that is off: its number in the line, its place behind the step part, what the log shows and what
// the rules give.
#[derive(Clone, Copy, Debug, PartialEq, Eq)]
pub struct Off {
    pub field: u32,
    pub place: u32,
    pub shown: Seen,
    pub given: Seen,
}

// What the rules give for a step.
#[derive(Clone, Copy)]
pub struct Given {
    pub answer: Answer,
    pub ticket: Ticket,
    pub grants: Grants,
}

// The number that the rules give at a place behind the step part, from 1: answer, ticket, number of grants, and unit
// and core of each.
pub(crate) fn given_at(p: Given, place: u32) -> Seen
    requires { 1 ≤ place }
    ensures { result ≡ seen_at (given_by p.answer p.ticket p.grants) place }
{
    match place {
        1 => Some(number(p.answer)),
        2 => Some(p.ticket.0),
        _ => grants_at(p.grants, place - 2),
    }
}

// From the number of grants on.
fn grants_at(grants: Grants, place: u32) -> Seen
    requires { 1 ≤ place }
    ensures { result ≡ seen_at (grants_given grants) place }
{
    match grants {
        Grants::None => none_at(place),
        Grants::One(g) => one_at(g, place),
        Grants::Two(g, h) => two_at(g, h, place),
    }
}

fn none_at(place: u32) -> Seen
    requires { 1 ≤ place }
    ensures { result ≡ seen_at (grants_given Grants.None) place }
{
    if place == 1 { Some(0) } else { None }
}

fn one_at(g: Grant, place: u32) -> Seen
    requires { 1 ≤ place }
    ensures { result ≡ seen_at (grants_given (Grants.One g)) place }
{
    if place == 1 {
        return Some(1);
    }
    grant_at(g, place - 1)
}

fn two_at(g: Grant, h: Grant, place: u32) -> Seen
    requires { 1 ≤ place }
    ensures { result ≡ seen_at (grants_given (Grants.Two g h)) place }
{
    match place {
        1 => Some(2),
        2 => Some(g.unit.0),
        3 => Some(g.core.0),
        _ => grant_at(h, place - 3),
    }
}

// From a grant's unit on.
fn grant_at(g: Grant, place: u32) -> Seen
    requires { 1 ≤ place }
    ensures { result ≡ seen_at (g.unit.0 ∷ g.core.0 ∷ []) place }
{
    match place {
        1 => Some(g.unit.0),
        2 => Some(g.core.0),
        _ => None,
    }
}
