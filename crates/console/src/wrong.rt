// What is wrong with a line, said on standard error.
use crate::shown::Byte;
use faults::{Fault, Form, Wrong, longest, numbers};
use parts::{CORES, PER_CLASS};
use std::io::Stderr;

// The line begins with this letter.
pub(crate) fn say_fault(err: Stderr, f: Fault, form: Form, letter: Byte) {
    let _ = match f {
        Fault::TooLong => print!(err; "longer than {} bytes with its end", longest(form)),
        Fault::Return => err.print("a carriage return before its end"),
        Fault::Empty => err.print("it is empty"),
        Fault::Letter => return say_letter(err, form, letter),
        Fault::TooFew => return say_fields(err, "few", form, letter),
        Fault::TooMany => return say_fields(err, "many", form, letter),
        Fault::Field(k, w) => return say_field(err, k, w),
        Fault::Cores(n) => print!(err; "{n} cores, and there may be 1 to {CORES}"),
        Fault::First(n) => print!(err; "{n} first-class units, and there may be 1 to {PER_CLASS}"),
        Fault::Second(n) => return say_second(err, n, letter),
    };
}

fn say_letter(err: Stderr, form: Form, letter: Byte) {
    let _ = match (form, letter.0) {
        (Form::Header, _) => print!(err; "it begins with \"{letter}\", and not with T or D"),
        (_, b'T' | b'D') => err.print("a header stands in line 1 only"),
        _ => print!(err; "no step begins with \"{letter}\""),
    };
}

// Only lines with a letter that has numbers have too few fields or too many.
fn say_fields(err: Stderr, many: &str, form: Form, letter: Byte) {
    let n = numbers(form, letter.0).unwrap_or(0);
    let s = if n == 1 { "" } else { "s" };
    let _ = print!(err; "too {many} fields, {letter} has {n} number{s}");
}

// Field 1 is the letter.
fn say_field(err: Stderr, k: usize, w: Wrong) {
    let _ = match w {
        Wrong::Space => err.print("a space, and one tab parts fields"),
        Wrong::Other if k == 1 => err.print("no tab behind its letter"),
        Wrong::Other => print!(err; "field {k} is no number"),
        Wrong::Missing => print!(err; "field {k} is empty"),
        Wrong::Sign => print!(err; "field {k} has a sign"),
        Wrong::LeadingZero => print!(err; "field {k} has a leading zero"),
        Wrong::TooGreat => print!(err; "field {k} is above 65535"),
    };
}

// A header of profile D has none.
fn say_second(err: Stderr, n: u16, letter: Byte) {
    let _ = if letter.0 == b'D' {
        print!(err; "{n} second-class units, and in a D header there must be 0")
    } else {
        print!(err; "{n} second-class units, and there may be 0 to {PER_CLASS}")
    };
}
