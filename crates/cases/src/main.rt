// Answers cases that stand on standard input, on standard output: what is fed when the code is compared
// with the second implementation.
//
// A case is a letter and what follows it. A u16 or u32 has its lowest byte first; a register is a u16
// ticket, a u8 valid and a u8 flag, each of these 0 or not; a unit is a register for each of `CORES`
// cores and its next in line, which is a u16 ticket, a u16 core, a u8 valid and a u8 held; an answer is
// one line, its fields parted by tabs, but for T.
// - T: u16 length, and so many bytes of script. Answered with what the translator program writes for
//   that script, and a line `--`.
// - B: u16 bytes lent, u16 length, and so many bytes of script: one call of the translation, from the
//   beginning. `B`, the stop's number, and how many bytes are written.
// - G: u16 length, and so many bytes of log: one call of the check, from the beginning. `G`, the stop's
//   number; then for 40 the line and the field, for 0 the steps that agreed, for any other the line.
// - S: a table. u16 cores, first-class units, second-class units and counter; `CORES` cores of u16 own,
//   carried, first and second and u8 state (0 idle, 1 waiting, 2 holding, 3 waiting second, 4 holding
//   both, 5 away, 6 marked, from 7 on dropped); 16 units. `S`, and 1 if it is sound, else 0.
// - M: a step by a method of the table. The table as in S; u8 letter (0 R, 1 N, 2 P, 3 I, 4 C, from 5 on
//   L), u16 core and u16 unit, which R and N alone read. `M`, the answer's number, ticket, number of
//   grants, unit and core of each; and the table handed back, its numbers in the order of S.
// - W: u32, a register word. `W`, 30; or `W`, 0, ticket, valid and flag.
// - P: a register. `P`, 30; or `P`, 0 and its word.
// - I: u16 cores, first-class units, second-class units and number of words, at most 600; the words, a
//   u32 each. `I`, 20 or 30; or `I`, 0, and for each unit of the image ticket, valid and flag of each of
//   its registers, and ticket, core, valid and held of its next in line.
// - O: u16 cores, first-class units, second-class units and number of words lent, at most 600; 16
//   units. `O`, 20 or 30; or `O`, 0, and the image's words.
// - H, L and E: a line by `write_header`, `write_step` or `write_expected`, into lent bytes which each
//   hold `.`. u16 number of bytes lent, at most 64, and u16 place. Then for H, u16 cores, first-class
//   units, second-class units and counter; for L, the step as in M; for E, u32 step number, u8 answer
//   (by its place among 0, 1, 2, 10 to 16 and 20, from 10 on 20), u16 ticket, u8 number of grants (from
//   2 on 2), and two times u16 unit and u16 core. The letter; 20, 23, or 0 and the next place; and
//   each byte lent, as a number.
// - s, m, i, o and h: as the capital letters, for a table, counts or a header of profile D; those are of
//   profile T. The answer has the case's letter.
//
// A case that the end of the input cuts off, another letter, a number of words above 600 and one of bytes
// lent above 64 end the program.
#![tactic(auto)]

mod bytes;
mod image;
mod logged;
mod methods;
mod next;
mod register;
mod scripts;
mod table;
mod text;
mod writers;

use bytes::{count, letter};
use image::WORDS_MOST;
use pieces::keep;
use std::io::Read;
use table::{IMAGE_SIZE, TABLE_SIZE};
use text::Answers;
use writers::BYTES_MOST;

// The place of the next case in the piece, and how many bytes of the piece are input.
#[derive(Clone, Copy)]
struct Place {
    at: usize,
    have: usize,
}

// The piece has room for the longest case, of 65,538 bytes.
fn main(rt: HostRuntime) {
    let mut input = [0; 131072];
    let mut out = [0; 65536];
    let mut answers = Answers {
        to: rt.stdout(),
        out: &mut out,
        wrote: 0,
    };
    every_turn(rt, &mut input, &mut answers);
}

// A turn answers a case, reads, or is the last; no input uses them up.
fn every_turn(rt: HostRuntime, input: &mut [u8], a: &mut Answers<'_>) {
    let mut now = Place { at: 0, have: 0 };
    for _ in 0..u64::MAX {
        let Some(next) = turn(rt, now, input, a) else {
            return;
        };
        now = next;
    }
}

// Answers the next case of the piece, or reads on where it is not all there; nothing follows what is no case.
fn turn(rt: HostRuntime, p: Place, input: &mut [u8], a: &mut Answers<'_>) -> Option<Place> {
    let cases = input.get(p.at..p.have)?;
    if cases.is_empty() {
        return read_on(rt, p, input, a);
    }
    let Some(n) = size(cases) else {
        a.flush();
        return None;
    };
    let Some(case) = cases.get(..n) else {
        return read_on(rt, p, input, a);
    };
    a.ease();
    answer(case, a);
    a.put(b"\n");
    Some(Place {
        at: p.at + n,
        have: p.have,
    })
}

// The answers go out before more is waited for. What is left of the piece moves to its front, and more
// of the input is read after it; nothing follows if there is no more.
fn read_on(rt: HostRuntime, p: Place, input: &mut [u8], a: &mut Answers<'_>) -> Option<Place> {
    if !a.flush() {
        return None;
    }
    let rest = keep(input, p.at, p.have);
    match rt.stdin().read(input.get_mut(rest..)?) {
        Ok(n @ 1..) => Some(Place {
            at: 0,
            have: rest + n,
        }),
        _ => None,
    }
}

// How many bytes the case at the front has, if it is one. Where not even its lengths are all there, it is
// more than there are.
fn size(s: &[u8]) -> Option<usize> {
    match letter(s) {
        b'T' | b'G' => Some(3 + count(s, 1)),
        b'B' => Some(5 + count(s, 3)),
        b'S' | b's' => Some(TABLE_SIZE),
        b'M' | b'm' => Some(TABLE_SIZE + 5),
        b'W' | b'P' => Some(5),
        b'I' | b'i' => image_size(s, 9 + 4 * count(s, 7)),
        b'O' | b'o' => image_size(s, IMAGE_SIZE),
        b'H' | b'h' => writers_size(s, 13),
        b'L' => writers_size(s, 10),
        b'E' => writers_size(s, 21),
        _ => None,
    }
}

// An image's case of so many bytes, if its number of words is in range.
fn image_size(s: &[u8], n: usize) -> Option<usize> {
    (count(s, 7) <= WORDS_MOST).then_some(n)
}

// A writer's case of so many bytes, if its number of bytes lent is in range.
fn writers_size(s: &[u8], n: usize) -> Option<usize> {
    (count(s, 1) <= BYTES_MOST).then_some(n)
}

// The answer of a whole case, but for its line end.
fn answer(s: &[u8], a: &mut Answers<'_>) {
    match letter(s) {
        b'T' => scripts::answer(s, a),
        b'B' => scripts::answer_lent(s, a),
        b'G' => logged::answer(s, a),
        b'S' | b's' => table::answer(s, a),
        b'M' | b'm' => methods::answer(s, a),
        b'W' => register::answer_word(s, a),
        b'P' => register::answer_register(s, a),
        b'I' | b'i' => image::answer_reading(s, a),
        b'O' | b'o' => image::answer_writing(s, a),
        _ => writers::answer(s, a),
    }
}
