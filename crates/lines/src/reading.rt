// Reading a step line at a place.
ghost use Rattle.std.specs.Prelude.{◌≡◌, ◌≤◌, ◌<◌, length, drop};
ghost use Rattle.lines.specs.StepLine.{no_line};
ghost use Rattle.lines.specs.ShortLine.{short_line};
ghost use Rattle.lines.specs.Reading.{ending, line_end_lem, one_number, two_numbers_lem, parse_step_lem, step_line_lem, read_step, step_line_number, step_number};

use numbers::read_field;
use parts::Step;
use ticket::{CoreNo, UnitNo};

// The longest script line, with its end.
pub const LINE_MOST: usize = 15;

// Why no end of a line was found: none within the longest line, or none yet.
#[derive(Clone, Copy, Debug, PartialEq, Eq)]
pub enum NoEnd {
    TooLong,
    CutOff,
}

// Where a line ends: the place of its end.
pub type Ending = Result<usize, NoEnd>;

// The bytes of a line as a step, if they are one.
pub type Parsed = Option<Step>;

// A line that is no step: a malformed one, 21, or one that is not finished, 22.
#[derive(Clone, Copy, Debug, PartialEq, Eq)]
pub enum BadLine {
    Malformed,
    Unfinished,
}

// A line that is too long is malformed, and one cut off is not finished.
impl From<NoEnd> for BadLine {
    ghost from_gives = { λ e b. b ≡ no_line e };

    fn from(e: NoEnd) -> BadLine {
        match e {
            NoEnd::TooLong => BadLine::Malformed,
            NoEnd::CutOff => BadLine::Unfinished,
        }
    }
}

// What stands at a place after the header: a step and the place after its line, or nothing, or a bad line.
pub type StepLine = Result<Option<(Step, usize)>, BadLine>;

// Where the line that starts at a place ends, if one of the next so many bytes is a line end.
pub fn end_within(s: &[u8], at: usize, most: usize) -> Ending
    ensures { result ≡ ending most at (drop at s.now) }
{
    let left = s.len().saturating_sub(at);
    for i in at..at + most.min(left) {
        if s[i] == b'\n' {
            return Ok(i);
        }
    }
    if left < most {
        return Err(NoEnd::CutOff);
    }
    Err(NoEnd::TooLong)
}

// The end of the line that starts at a place.
pub fn line_end(s: &[u8], at: usize) -> Ending
    ensures { result ≡ line_end_lem s.now at }
{
    end_within(s, at, LINE_MOST)
}

// A letter with one number.
pub fn one_number(letter: u8, k: CoreNo) -> Parsed
    ensures { result ≡ one_number letter k.0 }
{
    match letter {
        b'P' => Some(Step::P(k)),
        b'I' => Some(Step::I(k)),
        b'C' => Some(Step::C(k)),
        b'L' => Some(Step::L(k)),
        _ => None,
    }
}

// A letter with two numbers.
pub fn two_numbers(letter: u8, k: CoreNo, u: UnitNo) -> Parsed
    ensures { result ≡ two_numbers_lem letter k.0 u.0 }
{
    match letter {
        b'R' => Some(Step::R(k, u)),
        b'N' => Some(Step::N(k, u)),
        _ => None,
    }
}

// The bytes of a line, without its end, as a step.
fn parse_step(s: &[u8]) -> Parsed
    ensures { result ≡ parse_step_lem s.now }
{
    if s.len() < 2 || s[1] != b'\t' {
        return None;
    }
    let (k, more) = read_field(s, 2)?;
    let Some(i) = more else {
        return one_number(s[0], CoreNo(k));
    };
    match read_field(s, i)? {
        (u, None) => two_numbers(s[0], CoreNo(k), UnitNo(u)),
        (_, Some(_)) => None,
    }
}

// A step line whose numbers have one digit each: its letter, its core and, if it has two numbers, its unit. Or some other line.
type Short = Option<(u8, CoreNo, Option<UnitNo>)>;

// Whether the line at a place is short. Most lines are: they are read without looking for their end. Tests joined by `|` and `&`, which
// leave nothing out, make one branch.
fn short_line(s: &[u8], at: usize) -> Short
    requires { at ≤ length s.now }
    ensures { result ≡ short_line s.now at }
{
    if s.len() - at < 6 {
        return None;
    }
    let d = s[at + 2];
    if (s[at + 1] != b'\t') | !d.is_ascii_digit() {
        return None;
    }
    let k = CoreNo(u16::from(d - b'0'));
    let e = s[at + 3];
    if e == b'\n' {
        return Some((s[at], k, None));
    }
    let f = s[at + 4];
    if (e == b'\t') & f.is_ascii_digit() & (s[at + 5] == b'\n') {
        return Some((s[at], k, Some(UnitNo(u16::from(f - b'0')))));
    }
    None
}

// A line that ends before the place next, by what its bytes are.
fn found(p: Parsed, next: usize) -> StepLine
    ensures { result ≡ step_line_lem p next }
{
    let step = p.ok_or(BadLine::Malformed)?;
    Ok(Some((step, next)))
}

// The step line at a place.
pub fn step_line_at(s: &[u8], at: usize) -> StepLine
    ensures { (result ≡ read_step s.now at) × (step_line_number result ≡ step_number s.now at) }
{
    if s.len() <= at {
        return Ok(None);
    }
    match short_line(s, at) {
        Some((letter, k, None)) => found(one_number(letter, k), at + 4),
        Some((letter, k, Some(u))) => found(two_numbers(letter, k, u), at + 6),
        None => any_line(s, at),
    }
}

// The step line at a place, of any form.
fn any_line(s: &[u8], at: usize) -> StepLine
    requires { at < length s.now }
    ensures { result ≡ read_step s.now at }
{
    let e = line_end(s, at)?;
    found(parse_step(&s[at..e]), e + 1)
}
