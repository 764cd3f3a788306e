// Numbers as they are written, put into lent bytes from a place on.
//
// Each function that puts bytes answers the place after them. No digit is taken off by a loop: four
// digits are two numbers below 100.
ghost use Rattle.std.specs.Prelude.{◌≡◌, ◌+◌, ◌<◌, ◌≤◌, length};
ghost use Rattle.numbers.specs.Number.{decimal};
ghost use Rattle.digits.specs.Text.{tabbed, two, four, Puts};

// The two digits of a number below 100, both at once: the tens in the low byte, the units in the high one.
fn put_two(out: &mut [u8], at: usize, n: u32) -> usize
    requires { (n < 100) × (at + 2 ≤ length out.old) }
    ensures { Puts out.old out.new at result (two n) }
{
    let w = 12336 + 256 * n - 2559 * (n / 10);
    out[at] = (w % 256) as u8;
    out[at + 1] = (w / 256) as u8;
    at + 2
}

// The four digits of a number below 10,000.
fn put_four(out: &mut [u8], at: usize, n: u32) -> usize
    requires { (n < 10000) × (at + 4 ≤ length out.old) }
    ensures { Puts out.old out.new at result (four n) }
{
    let q = n / 100;
    let middle = put_two(out, at, q);
    put_two(out, middle, n - 100 * q)
}

// A number below 10,000.
fn put_short(out: &mut [u8], at: usize, n: u32) -> usize
    requires { (n < 10000) × (at + length (decimal n) ≤ length out.old) }
    ensures { Puts out.old out.new at result (decimal n) }
{
    if n < 100 {
        return put_few(out, at, n);
    }
    if n < 1000 {
        out[at] = (48 + n / 100) as u8;
        return put_two(out, at + 1, n % 100);
    }
    put_four(out, at, n)
}

// A number below 100,000,000.
fn put_long(out: &mut [u8], at: usize, n: u32) -> usize
    requires { (n < 100000000) × (at + length (decimal n) ≤ length out.old) }
    ensures { Puts out.old out.new at result (decimal n) }
{
    if n < 10000 {
        return put_short(out, at, n);
    }
    let high = put_short(out, at, n / 10000);
    put_four(out, high, n % 10000)
}

// Seam: a number.
pub fn put_number(out: &mut [u8], at: usize, n: u32) -> usize
    requires { at + length (decimal n) ≤ length out.old }
    ensures { Puts out.old out.new at result (decimal n) }
{
    if n < 10000 {
        return put_short(out, at, n);
    }
    if n < 1000000 {
        let q = n / 10000;
        let high = put_few(out, at, q);
        return put_four(out, high, n - 10000 * q);
    }
    let high = put_long(out, at, n / 10000);
    put_four(out, high, n % 10000)
}

// A number below 100.
fn put_few(out: &mut [u8], at: usize, n: u32) -> usize
    requires { (n < 100) × (at + length (decimal n) ≤ length out.old) }
    ensures { Puts out.old out.new at result (decimal n) }
{
    if n < 10 {
        out[at] = (48 + n) as u8;
        return at + 1;
    }
    put_two(out, at, n)
}

// Seam: a tab and a number, most often of five digits.
pub fn put_ticket(out: &mut [u8], at: usize, n: u16) -> usize
    requires { at + length (tabbed n) ≤ length out.old }
    ensures { Puts out.old out.new at result (tabbed n) }
{
    if n < 10000 {
        return put_tabbed(out, at, n);
    }
    out[at] = b'\t';
    let m = u32::from(n);
    let q = m / 10000;
    out[at + 1] = (48 + q) as u8;
    put_four(out, at + 2, m - 10000 * q)
}

// Seam: a tab and a number, most often of one digit.
pub fn put_tabbed(out: &mut [u8], at: usize, n: u16) -> usize
    requires { at + length (tabbed n) ≤ length out.old }
    ensures { Puts out.old out.new at result (tabbed n) }
{
    out[at] = b'\t';
    if n < 10 {
        out[at + 1] = (48 + n) as u8;
        return at + 2;
    }
    put_long(out, at + 1, u32::from(n))
}

// Seam: how many digits a number has.
pub fn width(n: u32) -> usize
    ensures { (result ≡ length (decimal n)) × (result ≤ 10) }
{
    if n == 0 {
        return 1;
    }
    n.ilog10() as usize + 1
}

// Seam: how many bytes a tab and a number are.
pub fn tabbed_width(n: u16) -> usize
    ensures { (result ≡ length (tabbed n)) × (result ≤ 6) }
{
    width(u32::from(n)) + 1
}
