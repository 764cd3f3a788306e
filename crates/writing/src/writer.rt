// Writing a header or a step line, whole, into lent bytes at a place.
//
// Whether a line fits whole is asked before its first byte is put, so that a refusal changes no byte.
ghost use Rattle.std.specs.Prelude.{◌≡◌, true, ◌+◌, ◌≤◌, length};
ghost use Rattle.parts.specs.Range.{in_range};
ghost use Rattle.lines.specs.Bytes.{script_letter, output_letter};
ghost use Rattle.digits.specs.Text.{Puts};
ghost use Rattle.digits.specs.Room.{wrote, left, written_number, write_number};
ghost use Rattle.writing.specs.Writing.{fields, letter_line, step_bytes, script_header, output_header, wrote_header, left_header};

use digits::{Unwritten, Written, has_room, put_tabbed, tabbed_width};
use parts::{Counts, Profile, Step, in_range};
use ticket::Ticket;

// How many bytes a letter, its numbers and the end are.
fn line_width(numbers: &[u16]) -> usize
    requires { length numbers.now ≤ 4 }
    ensures { result ≡ length (fields numbers.now) + 1 }
{
    let mut width = 2;
    for n in numbers {
        width += tabbed_width(*n);
    }
    width
}

// The line of a letter and its numbers, where there is room.
fn put_line(out: &mut [u8], at: usize, letter: u8, numbers: &[u16]) -> usize
    requires { at + length (letter_line letter numbers.now) ≤ length out.old }
    ensures { Puts out.old out.new at result (letter_line letter numbers.now) }
{
    out[at] = letter;
    let mut end = at + 1;
    for n in numbers {
        end = put_tabbed(out, end, *n);
    }
    out[end] = b'\n';
    end + 1
}

// The line of a letter and its numbers.
fn write_line(out: &mut [u8], at: usize, letter: u8, numbers: &[u16]) -> Written
    requires { length numbers.now ≤ 4 }
    ensures { (result ≡ wrote out.old at (letter_line letter numbers.now)) × (out.new ≡ left out.old at (letter_line letter numbers.now)) }
{
    if has_room(out.len(), at, line_width(numbers)) {
        Ok(put_line(out, at, letter, numbers))
    } else {
        Err(Unwritten::NoRoom)
    }
}

// The header's line with its letter, if the counts are in range.
fn write_headed(out: &mut [u8], at: usize, letter: u8, counts: Counts, counter: Ticket) -> Written
    ensures { (result ≡ wrote_header out.old at letter counts counter) × (out.new ≡ left_header out.old at letter counts counter) }
{
    if !in_range(counts) {
        return Err(Unwritten::OutOfRange);
    }
    let numbers = [counts.cores, counts.first, counts.second, counter.0];
    write_line(out, at, letter, &numbers)
}

// The letter that a script opens with, by its profile.
fn script_letter(p: Profile) -> u8
    ensures { result ≡ script_letter p }
{
    match p {
        Profile::T => b'T',
        Profile::D => b'D',
    }
}

// The letter that the output opens with, by the profile.
fn output_letter(p: Profile) -> u8
    ensures { result ≡ output_letter p }
{
    match p {
        Profile::T => b'E',
        Profile::D => b'F',
    }
}

// A script's first line.
pub fn write_header(out: &mut [u8], at: usize, counts: Counts, counter: Ticket) -> Written
    ensures { (result ≡ wrote_header out.old at (script_letter counts.profile) counts counter) × (out.new ≡ left_header out.old at (script_letter counts.profile) counts counter) × (written_number result ≡ write_number (in_range counts) out.old at (script_header counts counter)) }
{
    let p = counts.profile;
    write_headed(out, at, script_letter(p), counts, counter)
}

// The output's first line.
pub fn write_opening(out: &mut [u8], at: usize, counts: Counts, counter: Ticket) -> Written
    ensures { (result ≡ wrote_header out.old at (output_letter counts.profile) counts counter) × (out.new ≡ left_header out.old at (output_letter counts.profile) counts counter) × (written_number result ≡ write_number (in_range counts) out.old at (output_header counts counter)) }
{
    let p = counts.profile;
    write_headed(out, at, output_letter(p), counts, counter)
}

// A step line of a script.
pub fn write_step(out: &mut [u8], at: usize, s: Step) -> Written
    ensures { (result ≡ wrote out.old at (step_bytes s)) × (out.new ≡ left out.old at (step_bytes s)) × (written_number result ≡ write_number true out.old at (step_bytes s)) }
{
    match s {
        Step::R(k, u) => write_line(out, at, b'R', &[k.0, u.0]),
        Step::N(k, u) => write_line(out, at, b'N', &[k.0, u.0]),
        Step::P(k) => write_line(out, at, b'P', &[k.0]),
        Step::I(k) => write_line(out, at, b'I', &[k.0]),
        Step::C(k) => write_line(out, at, b'C', &[k.0]),
        Step::L(k) => write_line(out, at, b'L', &[k.0]),
    }
}
