// The letter of a case and its profile; numbers in a case, lowest byte first. What lies past the end reads as 0.
ghost use Rattle.std.specs.Prelude.{◌<◌};

use parts::Profile;

// The letter of a case.
pub(crate) fn letter(s: &[u8]) -> u8 {
    byte(s, 0)
}

// The letter of the same case of profile T.
pub(crate) fn capital(s: &[u8]) -> u8 {
    match letter(s) {
        small @ (b's' | b'm' | b'i' | b'o' | b'h') => small.to_ascii_uppercase(),
        letter => letter,
    }
}

// The profile of a case's counts.
pub(crate) fn profile(s: &[u8]) -> Profile {
    if letter(s) == capital(s) {
        Profile::T
    } else {
        Profile::D
    }
}

pub(crate) fn byte(s: &[u8], at: usize) -> u8 {
    s.get(at).copied().unwrap_or(0)
}

pub(crate) fn half(s: &[u8], at: usize) -> u16 {
    match s.get(at..) {
        Some([low, high, ..]) => u16::from_le_bytes([*low, *high]),
        _ => 0,
    }
}

// A half as a length.
pub(crate) fn count(s: &[u8], at: usize) -> usize
    ensures { result < 65536 }
{
    usize::from(half(s, at))
}

pub(crate) fn word(s: &[u8], at: usize) -> u32 {
    match s.get(at..) {
        Some([a, b, c, d, ..]) => u32::from_le_bytes([*a, *b, *c, *d]),
        _ => 0,
    }
}
