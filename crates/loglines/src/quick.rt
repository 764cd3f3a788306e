// A line whose step part has numbers of one digit, and a field behind it: read and held to the rules by its bytes, without looking
// for its end.
ghost use Rattle.loglines.specs.Quick.{QuickSays, SameBytes};

use lines::{one_number, two_numbers};
use parts::Step;
use ticket::{CoreNo, UnitNo};

// The step, and the place of the tab behind its part. Or some other line.
pub type Quick = Option<(Step, usize)>;

pub fn quick_part(s: &[u8], at: usize) -> Quick
    ensures { QuickSays s.now at result }
{
    if s.len() <= at || s.len() - at < 6 {
        return None;
    }
    let d = s[at + 2];
    if s[at + 1] != b'\t' || !d.is_ascii_digit() || s[at + 3] != b'\t' {
        return None;
    }
    let k = CoreNo(u16::from(d - b'0'));
    if let Some(x) = one_number(s[at], k) {
        return Some((x, at + 3));
    }
    let e = s[at + 4];
    if !e.is_ascii_digit() || s[at + 5] != b'\t' {
        return None;
    }
    let x = two_numbers(s[at], k, UnitNo(u16::from(e - b'0')))?;
    Some((x, at + 5))
}

// Whether two texts begin with the same n bytes.
pub fn begins(s: &[u8], others: &[u8], n: usize) -> bool
    ensures { SameBytes s.now others.now n result }
{
    n <= s.len() && n <= others.len() && s[..n] == others[..n]
}
