// Reading the header at a place.
ghost use Rattle.std.specs.Prelude.{◌≡◌};
ghost use Rattle.numbers.specs.Number.{field};
ghost use Rattle.headers.specs.HeaderLine.{no_line};
ghost use Rattle.headers.specs.Header.{number_then, with_cores, parse_header_lem, read_header, header_line_number, header_number};

use lines::{NoEnd, line_end};
use numbers::read_field;
use parts::{Counts, Fill, Profile, in_range};
use ticket::Ticket;

// The bytes of a line as a header, if they are one.
pub type ParsedHeader = Option<(Counts, Ticket)>;

// A line that is no header: a malformed one, 20, or one that is not finished, 22. Beside `lines::BadLine`, whose malformed line is 21:
// a stop is made of either.
#[derive(Clone, Copy, Debug, PartialEq, Eq)]
pub enum BadHeader {
    Malformed,
    Unfinished,
}

// A line that is too long is malformed, and one cut off is not finished.
impl From<NoEnd> for BadHeader {
    ghost from_gives = { λ e b. b ≡ no_line e };

    fn from(e: NoEnd) -> BadHeader {
        match e {
            NoEnd::TooLong => BadHeader::Malformed,
            NoEnd::CutOff => BadHeader::Unfinished,
        }
    }
}

// What stands at a place before the header: a good header and the place after its line, or none.
pub type HeaderLine = Result<(Counts, Ticket, usize), BadHeader>;

// The number at a place, which a tab ends, and the place after it.
fn number_then(s: &[u8], at: usize) -> Option<(u16, usize)>
    ensures { result ≡ number_then (field s.now at) }
{
    let (v, next) = read_field(s, at)?;
    Some((v, next?))
}

// The numbers of a header from a place on: three that a tab ends, and one that ends its line.
fn numbers(s: &[u8], p: Profile, at: usize) -> ParsedHeader
    ensures { result ≡ with_cores s.now p (field s.now at) }
{
    let (cores, at) = number_then(s, at)?;
    let (first, at) = number_then(s, at)?;
    let (second, at) = number_then(s, at)?;
    let (counter, None) = read_field(s, at)? else {
        return None;
    };
    let counts = Counts {
        cores,
        first,
        second,
        profile: p,
        fill: Fill::Blank,
    };
    Some((counts, Ticket(counter)))
}

// The bytes of a line, without its end, as a header.
fn parse_header(s: &[u8]) -> ParsedHeader
    ensures { result ≡ parse_header_lem s.now }
{
    if s.len() < 2 || s[1] != b'\t' {
        return None;
    }
    match s[0] {
        b'T' => numbers(s, Profile::T, 2),
        b'D' => numbers(s, Profile::D, 2),
        _ => None,
    }
}

// The header at a place.
pub fn header_line_at(s: &[u8], at: usize) -> HeaderLine
    ensures { (result ≡ read_header s.now at) × (header_line_number result ≡ header_number s.now at) }
{
    if s.len() <= at {
        return Err(BadHeader::Unfinished);
    }
    let e = line_end(s, at)?;
    match parse_header(&s[at..e]) {
        Some((c, n)) if in_range(c) => Ok((c, n, e + 1)),
        _ => Err(BadHeader::Malformed),
    }
}
