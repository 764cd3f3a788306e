// A line of two numbers, parted by one tab, and how they compare as tickets.
ghost use Rattle.std.specs.Prelude.{◌≡◌};
ghost use Rattle.comparing.specs.Pair.{first_field, compared};

use numbers::read_field;
use ticket::{Comparison, Ticket, compare};

// What two numbers read as tickets compare as, if there are two.
pub type Told = Option<Comparison>;

// A line without its end: a number that a tab ends, and one that ends the line.
fn first_field(line: &[u8]) -> Told
    ensures { result ≡ first_field line.now }
{
    let (a, Some(next)) = read_field(line, 0)? else {
        return None;
    };
    let (b, None) = read_field(line, next)? else {
        return None;
    };
    Some(compare(Ticket(a), Ticket(b)))
}

// A line with its end, and nothing after it.
pub fn compared(s: &[u8]) -> Told
    ensures { result ≡ compared s.now }
{
    match s.split_last() {
        Some((b'\n', line)) => first_field(line),
        _ => None,
    }
}
