// Reading a log line: its end, its step part, and the numbers behind it.
ghost use Rattle.std.specs.Prelude.{◌≡◌, true, ◌≤◌, drop};
ghost use Rattle.lines.specs.Reading.{ending};
ghost use Rattle.loglines.specs.Log.{log_most, given_by};
ghost use Rattle.loglines.specs.Parts.{part_in, rest_from, are_numbers, off_by, ended_at, judged_in};

use crate::seen::{Given, Off, Seen, given_at};
use lines::{Ending, end_within, one_number, two_numbers};
use numbers::read_field;
use parts::Step;
use ticket::{CoreNo, UnitNo};

// The longest log line, with its end.
pub const LOG_MOST: usize = 62;

// The end of the log line that starts at a place.
pub fn log_end(s: &[u8], at: usize) -> Ending
    ensures { result ≡ ending log_most at (drop at s.now) }
{
    end_within(s, at, LOG_MOST)
}

// The step part of a line without its end, if there is one: the step, how many numbers it has, and the place of the field
// behind it, if there is one.
pub type Part = Option<(Step, u32, Option<usize>)>;

pub fn step_part(s: &[u8]) -> Part
    ensures { result ≡ part_in s.now }
{
    if s.len() < 2 || s[1] != b'\t' {
        return None;
    }
    let (k, more) = read_field(s, 2)?;
    if let Some(x) = one_number(s[0], CoreNo(k)) {
        return Some((x, 1, more));
    }
    let (u, more) = read_field(s, more?)?;
    let x = two_numbers(s[0], CoreNo(k), UnitNo(u))?;
    Some((x, 2, more))
}

// Why the numbers behind the step part do not agree: one is none, 21; the first that is off.
#[derive(Clone, Copy, Debug, PartialEq, Eq)]
pub enum Mismatch {
    Malformed,
    Disagrees(Off),
}

// What the numbers behind the step part come to.
pub type Judged = Result<(), Mismatch>;

// The fields from a place on are numbers.
pub fn all_numbers(s: &[u8], from: Option<usize>) -> bool
    ensures { result ≡ are_numbers (rest_from s.now from) }
{
    let Some(mut i) = from else {
        return true;
    };
    for _ in 0..s.len() {
        match read_field(s, i) {
            None => return false,
            Some((_, None)) => return true,
            Some((_, Some(j))) => i = j,
        }
    }
    false
}

// The fields behind a step part of n numbers, held to what the rules give.
pub fn held(s: &[u8], n: u32, from: Option<usize>, p: Given) -> Judged
    requires { n ≤ 2 }
    ensures { result ≡ judged_in s.now n from (given_by p.answer p.ticket p.grants) }
{
    if !all_numbers(s, from) {
        return Err(Mismatch::Malformed);
    }
    compared(s, n, from, p)
}

// All of them are numbers: the first that is off. So many agreed as are passed, which are no more than were given.
fn compared(s: &[u8], n: u32, from: Option<usize>, p: Given) -> Judged
    requires { (n ≤ 2) × (are_numbers (rest_from s.now from) ≡ true) }
    ensures { result ≡ judged_in s.now n from (given_by p.answer p.ticket p.grants) }
{
    let mut next = from;
    let mut passed = 0;
    while let Some(i) = next {
        let Some((v, more)) = read_field(s, i) else {
            return Err(Mismatch::Malformed);
        };
        let given = given_at(p, passed + 1);
        if given != Some(v) {
            return off(n, passed + 1, Some(v), given);
        }
        next = more;
        passed += 1;
    }
    ended(n, passed + 1, given_at(p, passed + 1))
}

// No field is left: nothing may be given here.
fn ended(n: u32, place: u32, given: Seen) -> Judged
    requires { (n ≤ 2) × (place ≤ 8) }
    ensures { result ≡ ended_at n place given }
{
    if given.is_none() {
        Ok(())
    } else {
        off(n, place, None, given)
    }
}

// The field behind a step part of n numbers, which follow the letter.
fn off(n: u32, place: u32, shown: Seen, given: Seen) -> Judged
    requires { (n ≤ 2) × (place ≤ 8) }
    ensures { result ≡ off_by n place shown given }
{
    Err(Mismatch::Disagrees(Off {
        field: 1 + n + place,
        place,
        shown,
        given,
    }))
}
