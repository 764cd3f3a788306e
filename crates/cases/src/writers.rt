// A line by one of the writers' functions, into lent bytes.
use crate::bytes::{byte, capital, count, half, letter, profile, word};
use crate::text::Answers;
use digits::{Unwritten, Written};
use parts::{Answer, Counts, Fill, Grants, Step};
use ticket::{CoreNo, Grant, Ticket, UnitNo};

// The most bytes that a case lends.
pub(crate) const BYTES_MOST: usize = 64;

// The answer of the letter's function, and the bytes lent as they are then.
pub(crate) fn answer(s: &[u8], a: &mut Answers<'_>) {
    let mut space = [b'.'; BYTES_MOST];
    let Some(lent) = space.get_mut(..count(s, 1)) else {
        return;
    };
    put_written(a, letter(s), written(s, lent));
    for b in lent {
        a.field(*b);
    }
}

fn written(s: &[u8], lent: &mut [u8]) -> Written {
    match capital(s) {
        b'H' => header(s, lent),
        b'L' => step(s, lent),
        _ => expected(s, lent),
    }
}

// The place, which stands second in a case of the writers.
fn place(s: &[u8]) -> usize {
    count(s, 3)
}

fn header(s: &[u8], lent: &mut [u8]) -> Written {
    let counts = Counts {
        cores: half(s, 5),
        first: half(s, 7),
        second: half(s, 9),
        profile: profile(s),
        fill: Fill::Blank,
    };
    writing::write_header(lent, place(s), counts, Ticket(half(s, 11)))
}

fn step(s: &[u8], lent: &mut [u8]) -> Written {
    let x = lettered(byte(s, 5), CoreNo(half(s, 6)), UnitNo(half(s, 8)));
    writing::write_step(lent, place(s), x)
}

// The step of a letter's number.
fn lettered(letter: u8, k: CoreNo, u: UnitNo) -> Step {
    match letter {
        0 => Step::R(k, u),
        1 => Step::N(k, u),
        2 => Step::P(k),
        3 => Step::I(k),
        4 => Step::C(k),
        _ => Step::L(k),
    }
}

fn expected(s: &[u8], lent: &mut [u8]) -> Written {
    expected::write_expected(
        lent,
        place(s),
        word(s, 5),
        answered(byte(s, 9)),
        Ticket(half(s, 10)),
        grants(s),
    )
}

// An answer by its place among all of them.
fn answered(n: u8) -> Answer {
    match n {
        0 => Answer::Done,
        1 => Answer::Granted,
        2 => Answer::NotYet,
        3 => Answer::NoCore,
        4 => Answer::NoUnit,
        5 => Answer::WrongState,
        6 => Answer::WrongClass,
        7 => Answer::Masked,
        8 => Answer::Stretched,
        9 => Answer::Unsound,
        _ => Answer::OutOfRange,
    }
}

fn grants(s: &[u8]) -> Grants {
    let first = grant(word(s, 13));
    match byte(s, 12) {
        0 => Grants::None,
        1 => Grants::One(first),
        _ => Grants::Two(first, grant(word(s, 17))),
    }
}

// The grant of four bytes: unit, core.
fn grant(w: u32) -> Grant {
    let [a, b, c, d] = w.to_le_bytes();
    Grant {
        unit: UnitNo(u16::from_le_bytes([a, b])),
        core: CoreNo(u16::from_le_bytes([c, d])),
    }
}

// The number of a writer's answer, and the next place if it wrote.
fn put_written(a: &mut Answers<'_>, letter: u8, x: Written) {
    match x {
        Ok(n) => {
            a.head(letter, 0);
            a.field(n as u64);
        }
        Err(Unwritten::OutOfRange) => a.head(letter, 20),
        Err(Unwritten::NoRoom) => a.head(letter, 23),
    }
}
