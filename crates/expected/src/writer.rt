// Writing an expected line, whole, into lent bytes at a place.
//
// Whether a line fits whole is asked before its first byte is put, so that a refusal changes no byte.
ghost use Rattle.std.specs.Prelude.{◌≡◌, true, ◌+◌, ◌≤◌, leb, ltb, length};
ghost use Rattle.parts.specs.Answer.{number_of};
ghost use Rattle.digits.specs.Text.{tabbed, Puts};
ghost use Rattle.digits.specs.Room.{wrote, left, written_number, write_number};
ghost use Rattle.expected.specs.Expected.{grant_bytes, grants_bytes, shown_bytes, expected_bytes};

use digits::{
    Unwritten, Written, has_room, put_number, put_tabbed, put_ticket, tabbed_width, width,
};
use parts::{Answer, Grants, number};
use ticket::{Grant, Ticket};

// The longest expected line of a run, with its end.
pub const EXPECTED_MOST: usize = 29;

// No expected line is longer, whatever its numbers: ten digits, seven times a tab and ten digits, and
// the end.
const ROOM_FOR_ANY: usize = 88;

// How many bytes a grant is.
fn grant_width(g: Grant) -> usize
    ensures { (result ≡ length (grant_bytes g)) × (result ≤ 12) }
{
    tabbed_width(g.unit.0) + tabbed_width(g.core.0)
}

// A grant: its unit and its core.
fn put_grant(out: &mut [u8], at: usize, g: Grant) -> usize
    requires { at + length (grant_bytes g) ≤ length out.old }
    ensures { Puts out.old out.new at result (grant_bytes g) }
{
    let next = put_tabbed(out, at, g.unit.0);
    put_tabbed(out, next, g.core.0)
}

// How many bytes grants are.
fn grants_width(g: Grants) -> usize
    ensures { (result ≡ length (grants_bytes g)) × (result ≤ 26) }
{
    match g {
        Grants::None => 2,
        Grants::One(a) => grant_width(a) + 2,
        Grants::Two(a, b) => grant_width(a) + grant_width(b) + 2,
    }
}

// How many grants, and each.
fn put_grants(out: &mut [u8], at: usize, g: Grants) -> usize
    requires { at + length (grants_bytes g) ≤ length out.old }
    ensures { Puts out.old out.new at result (grants_bytes g) }
{
    match g {
        Grants::None => put_tabbed(out, at, 0),
        Grants::One(a) => {
            let first = put_tabbed(out, at, 1);
            put_grant(out, first, a)
        }
        Grants::Two(a, b) => {
            let first = put_tabbed(out, at, 2);
            let second = put_grant(out, first, a);
            put_grant(out, second, b)
        }
    }
}

// How many bytes an expected line is.
fn expected_width(step: u32, answer: Answer, ticket: Ticket, grants: Grants) -> usize
    ensures { result ≡ length (expected_bytes step answer ticket grants) }
{
    let answered = width(step) + tabbed_width(number(answer));
    answered + tabbed_width(ticket.0) + grants_width(grants) + 1
}

// Seam: whether an expected line fits: there is room for any, or for this one.
pub fn expected_fits(
    len: usize,
    at: usize,
    step: u32,
    answer: Answer,
    ticket: Ticket,
    grants: Grants,
) -> bool
    ensures { result ≡ leb (at + length (expected_bytes step answer ticket grants)) len }
{
    if has_room(len, at, ROOM_FOR_ANY) {
        return true;
    }
    has_room(len, at, expected_width(step, answer, ticket, grants))
}

// Whether an answer's number has one digit.
fn taken(a: Answer) -> bool
    ensures { result ≡ ltb (number_of a) 10 }
{
    matches!(a, Answer::Done | Answer::Granted | Answer::NotYet)
}

// A tab and an answer's number, most often of one digit.
fn put_answer(out: &mut [u8], at: usize, a: Answer) -> usize
    requires { at + length (tabbed (number_of a)) ≤ length out.old }
    ensures { Puts out.old out.new at result (tabbed (number_of a)) }
{
    if taken(a) {
        out[at] = b'\t';
        out[at + 1] = (48 + number(a)) as u8;
        return at + 2;
    }
    put_tabbed(out, at, number(a))
}

// Seam: an expected line, where there is room.
pub fn put_expected(
    out: &mut [u8],
    at: usize,
    step: u32,
    answer: Answer,
    ticket: Ticket,
    grants: Grants,
) -> usize
    requires { at + length (expected_bytes step answer ticket grants) ≤ length out.old }
    ensures { Puts out.old out.new at result (expected_bytes step answer ticket grants) }
{
    let stepped = put_number(out, at, step);
    put_shown(out, stepped, answer, ticket, grants)
}

// Seam: what an expected line has behind the step's number, where there is room.
pub fn put_shown(out: &mut [u8], at: usize, answer: Answer, ticket: Ticket, grants: Grants) -> usize
    requires { at + length (shown_bytes answer ticket grants) ≤ length out.old }
    ensures { Puts out.old out.new at result (shown_bytes answer ticket grants) }
{
    let answered = put_answer(out, at, answer);
    let ticketed = put_ticket(out, answered, ticket.0);
    let granted = put_grants(out, ticketed, grants);
    out[granted] = b'\n';
    granted + 1
}

// The output's line for a step.
pub fn write_expected(
    out: &mut [u8],
    at: usize,
    step: u32,
    answer: Answer,
    ticket: Ticket,
    grants: Grants,
) -> Written
    ensures { (result ≡ wrote out.old at (expected_bytes step answer ticket grants)) × (out.new ≡ left out.old at (expected_bytes step answer ticket grants)) × (written_number result ≡ write_number true out.old at (expected_bytes step answer ticket grants)) }
{
    if expected_fits(out.len(), at, step, answer, ticket, grants) {
        Ok(put_expected(out, at, step, answer, ticket, grants))
    } else {
        Err(Unwritten::NoRoom)
    }
}
