// What is wrong with a line: what stands first in it that may not.
ghost use Rattle.std.specs.Prelude.{◌≡◌, true, None, ◌-◌, ◌≤◌, ◌<◌, length, get_or, take, drop};
ghost use Rattle.faults.specs.Fault.{wrong, step_numbers, numbers, profile_of, kind_of, digit, other, look, counted, count, too_many, tabbed, ended, upto, next_field, next, numbers_from_lem, after_letter, from_left, line_fault, most, too_long, fault_at};

use lines::{LINE_MOST, NoEnd, end_within};
use loglines::LOG_MOST;
use parts::{CORES, PER_CLASS, Profile, dequeues};

// What a line is read as.
#[derive(Clone, Copy)]
pub enum Form {
    Script,
    Log,
    Header,
}

// What follows a line's letter: the numbers of a step; those of a log's line; those of a header of a profile.
#[derive(Clone, Copy)]
pub enum Kind {
    Step,
    Logged,
    Head(Profile),
}

// Why a field is no number.
#[derive(Clone, Copy, Debug, PartialEq, Eq)]
pub enum Wrong {
    Missing,
    Sign,
    LeadingZero,
    TooGreat,
    Space,
    Other,
}

// What is wrong with a line: no end within the longest one; a carriage return before its end; no byte; the letter; too few
// numbers or too many; a field, counted from 1 with the letter; a count of a header.
#[derive(Clone, Copy, Debug, PartialEq, Eq)]
pub enum Fault {
    TooLong,
    Return,
    Empty,
    Letter,
    TooFew,
    TooMany,
    Field(usize, Wrong),
    Cores(u16),
    First(u16),
    Second(u16),
}

// Up to a byte of a line: the field, and the value of its digits, if it has any.
#[derive(Clone, Copy)]
pub struct Upto {
    pub field: usize,
    pub value: Option<u16>,
}

// How many numbers follow a step's letter.
fn step_numbers(b: u8) -> Option<usize>
    ensures { result ≡ step_numbers b }
{
    match b {
        b'R' | b'N' => Some(2),
        b'P' | b'I' | b'C' | b'L' => Some(1),
        _ => None,
    }
}

// How many numbers follow the letter of a line, if there are lines with it.
pub fn numbers(form: Form, b: u8) -> Option<usize>
    ensures { result ≡ numbers form b }
{
    match form {
        Form::Script | Form::Log => step_numbers(b),
        Form::Header => header_numbers(b),
    }
}

fn header_numbers(b: u8) -> Option<usize>
    ensures { result ≡ numbers Form.Header b }
{
    match b {
        b'T' | b'D' => Some(4),
        _ => None,
    }
}

// The profile by a header's letter.
fn profile_of(b: u8) -> Profile
    ensures { result ≡ profile_of b }
{
    if b == b'T' { Profile::T } else { Profile::D }
}

// What follows the letter of a line.
fn kind_of(form: Form, b: u8) -> Kind
    ensures { result ≡ kind_of form b }
{
    match form {
        Form::Script => Kind::Step,
        Form::Log => Kind::Logged,
        Form::Header => Kind::Head(profile_of(b)),
    }
}

// A digit after those whose value is v, if there are any.
fn digit(v: Option<u16>, d: u16) -> Result<Option<u16>, Wrong>
    requires { d ≤ 9 }
    ensures { result ≡ digit v d }
{
    if v == Some(0) {
        return Err(Wrong::LeadingZero);
    }
    let n = 10 * u32::from(v.unwrap_or(0)) + u32::from(d);
    if n <= 65535 {
        Ok(Some(n as u16))
    } else {
        Err(Wrong::TooGreat)
    }
}

// A byte that is neither a digit nor a tab, after some digits or none.
fn other(some: bool, b: u8) -> Wrong
    ensures { result ≡ other some b }
{
    match b {
        b' ' => Wrong::Space,
        b'+' | b'-' if !some => Wrong::Sign,
        _ => Wrong::Other,
    }
}

// A byte of a number, after digits whose value is v, if there are any: nothing at a tab, the value with a digit.
fn look_at(v: Option<u16>, b: u8) -> Result<Option<u16>, Wrong>
    ensures { result ≡ look v b }
{
    match b {
        b'\t' if v.is_some() => Ok(None),
        b'\t' => Err(Wrong::Missing),
        b'0'..=b'9' => digit(v, u16::from(b - b'0')),
        _ => Err(other(v.is_some(), b)),
    }
}

// Field k of a header has the value v.
fn counted(p: Profile, k: usize, v: u16) -> Result<(), Fault>
    ensures { result ≡ counted p k v }
{
    let n = usize::from(v);
    if (k == 2) & !((1 <= n) & (n <= CORES)) {
        return Err(Fault::Cores(v));
    }
    if (k == 3) & !((1 <= n) & (n <= PER_CLASS)) {
        return Err(Fault::First(v));
    }
    let classed = !dequeues(p) | (n == 0);
    if (k == 4) & !((n <= PER_CLASS) & classed) {
        return Err(Fault::Second(v));
    }
    Ok(())
}

// Field k of a line has the value v.
fn count(kind: Kind, k: usize, v: u16) -> Result<(), Fault>
    ensures { result ≡ count kind k v }
{
    match kind {
        Kind::Step | Kind::Logged => Ok(()),
        Kind::Head(p) => counted(p, k, v),
    }
}

// More numbers than the letter has.
fn too_many(kind: Kind) -> Result<(), Fault>
    ensures { result ≡ too_many kind }
{
    match kind {
        Kind::Step | Kind::Head(_) => Err(Fault::TooMany),
        Kind::Logged => Ok(()),
    }
}

// A tab ends field k, whose value is v; the letter has n numbers.
fn tabbed(kind: Kind, n: usize, k: usize, v: u16) -> Result<(), Fault>
    ensures { result ≡ tabbed kind n k v }
{
    count(kind, k, v)?;
    if k <= n { Ok(()) } else { too_many(kind) }
}

// The line's end ends field k, whose value is v, if it has any digits.
fn ended(kind: Kind, n: usize, k: usize, v: Option<u16>) -> Result<(), Fault>
    ensures { result ≡ ended kind n k v }
{
    let v = v.ok_or(Fault::Field(k, Wrong::Missing))?;
    count(kind, k, v)?;
    if k <= n { Err(Fault::TooFew) } else { Ok(()) }
}

// A tab ends field k: on with the next one, unless something is wrong.
fn next_field(kind: Kind, n: usize, k: usize, v: u16, then: usize) -> Result<Upto, Fault>
    ensures { result ≡ next_field kind n k v then }
{
    tabbed(kind, n, k, v)?;
    Ok(Upto {
        field: then,
        value: None,
    })
}

// One byte more.
fn next_at(kind: Kind, n: usize, a: Upto, s: &[u8], i: usize) -> Result<Upto, Fault>
    requires { (a.field ≤ i) × (i < length s.now) }
    ensures { result ≡ next kind n a (get_or s.now i 0) }
{
    let k = a.field;
    match look_at(a.value, s[i]) {
        Ok(None) => next_field(kind, n, k, a.value.unwrap_or(0), k + 1),
        Ok(value) => Ok(Upto { field: k, value }),
        Err(w) => Err(Fault::Field(k, w)),
    }
}

// The numbers of a line, from its third byte on.
fn numbers_from(kind: Kind, n: usize, s: &[u8]) -> Result<(), Fault>
    ensures { result ≡ numbers_from_lem kind n (upto 2 None) (drop 2 s.now) }
{
    let mut a = Upto {
        field: 2,
        value: None,
    };
    for i in 2..s.len() {
        a = next_at(kind, n, a, s, i)?;
    }
    ended(kind, n, a.field, a.value)
}

// What follows a letter that has n numbers.
fn after_letter(kind: Kind, n: usize, s: &[u8]) -> Result<(), Fault>
    ensures { result ≡ after_letter kind n s.now }
{
    if s.len() <= 1 {
        return Err(Fault::TooFew);
    }
    if s[1] == b'\t' {
        numbers_from(kind, n, s)
    } else {
        Err(Fault::Field(1, other(true, s[1])))
    }
}

// A line without its end, from the left.
fn from_left(form: Form, s: &[u8]) -> Result<(), Fault>
    ensures { result ≡ from_left form s.now }
{
    if s.is_empty() {
        return Err(Fault::Empty);
    }
    let n = numbers(form, s[0]).ok_or(Fault::Letter)?;
    after_letter(kind_of(form, s[0]), n, s)
}

// The same, but a carriage return at the end is told first.
fn line_fault(form: Form, s: &[u8]) -> Result<(), Fault>
    ensures { result ≡ line_fault form s.now }
{
    let f = from_left(form, s);
    if f.is_err() & s.ends_with(b"\r") {
        Err(Fault::Return)
    } else {
        f
    }
}

// The longest line, with its end.
pub fn longest(form: Form) -> usize
    ensures { result ≡ most form }
{
    match form {
        Form::Script | Form::Header => LINE_MOST,
        Form::Log => LOG_MOST,
    }
}

// The line from a place to its end, e.
fn line_at(form: Form, s: &[u8], at: usize, e: usize) -> Result<(), Fault>
    requires { (at ≤ e) × (e < length s.now) }
    ensures { result ≡ line_fault form (take (e - at) (drop at s.now)) }
{
    line_fault(form, &s[at..e])
}

// A line with no end within m bytes from a place: a carriage return as the last of them is told first.
fn too_long(m: usize, s: &[u8], at: usize) -> Fault
    requires { 0 < m }
    ensures { result ≡ too_long m s.now at }
{
    if s.len() <= at {
        return Fault::TooLong;
    }
    if s.len() - at < m {
        return Fault::TooLong;
    }
    if s[at + (m - 1)] == b'\r' {
        Fault::Return
    } else {
        Fault::TooLong
    }
}

// The line at a place; nothing is wrong yet with one that is not finished.
pub fn fault_at(form: Form, s: &[u8], at: usize) -> Result<(), Fault>
    ensures { result ≡ fault_at form s.now at }
{
    let m = longest(form);
    match end_within(s, at, m) {
        Ok(e) => line_at(form, s, at, e),
        Err(NoEnd::TooLong) => Err(too_long(m, s, at)),
        Err(NoEnd::CutOff) => Ok(()),
    }
}
