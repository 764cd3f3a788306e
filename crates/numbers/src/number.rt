// A number: decimal, 0 to 65,535, no sign, no leading zero.
ghost use Rattle.std.specs.Prelude.{◌≡◌, cond, ◌+◌, ◌-◌, ◌*◌, ◌≤◌};
ghost use Rattle.numbers.specs.Field.{Bad, Last, Then};
ghost use Rattle.numbers.specs.Number.{number_most, follows, field};

// A field that is a number, and the place after the tab that ends it; without a place it ends its line. Or none that is a number.
pub type Field = Option<(u16, Option<usize>)>;

// Whether a byte may follow the digits read so far, some or none, whose value is v.
fn follows(some: bool, v: u16, b: u8) -> bool
    ensures { result ≡ follows some v b }
{
    b.is_ascii_digit() && !(some && v == 0) && 10 * u32::from(v) + u32::from(b - b'0') <= 65535
}

// The value of the digits read so far with one digit more, which fits.
fn grown(v: u16, b: u8) -> u16
    requires { (48 ≤ b) × (10 * v + (b - 48) ≤ number_most) }
    ensures { result ≡ 10 * v + (b - 48) }
{
    10 * v + u16::from(b - b'0')
}

// The field of a line that starts at a place. Each byte is looked at once.
pub fn read_field(s: &[u8], at: usize) -> Field
    ensures { result ≡ field s.now at }
{
    let mut some = false;
    let mut v: u16 = 0;
    for i in at..s.len() {
        let b = s[i];
        if b == b'\t' {
            return some.then_some((v, Some(i + 1)));
        }
        if !follows(some, v, b) {
            return None;
        }
        v = grown(v, b);
        some = true;
    }
    some.then_some((v, None))
}
