// Reads good and damaged lines and register words on standard input, and writes what each is read as.
//
// A case is a letter, a length byte, and so many bytes: S, a script after its header; H, a script before
// it; W, a register word, lowest byte first. The cases and the stored answers are what
// second/readings.py makes, from documents 01 and 02 alone.
#![tactic(auto)]

use headers::BadHeader;
use lines::BadLine;
use parts::{Counts, Profile, Register, Step};
use std::io::Stdout;
use ticket::{CoreNo, Ticket, UnitNo};

fn main(rt: HostRuntime) {
    let mut buf = [0; 65536];
    let n = input::fill(&mut rt.stdin(), &mut buf);
    every_case(rt.stdout(), &buf[..n]);
}

// The cases up to one that is cut off.
fn every_case(out: Stdout, s: &[u8]) {
    let mut rest = s;
    while let [kind, len, behind @ ..] = rest {
        let Some((bytes, next)) = behind.split_at_checked(usize::from(*len)) else {
            return;
        };
        case(out, *kind, bytes);
        rest = next;
    }
}

fn case(out: Stdout, kind: u8, s: &[u8]) {
    match kind {
        b'S' => step(out, s),
        b'H' => header(out, s),
        _ => word(out, s),
    }
}

fn step(out: Stdout, s: &[u8]) {
    match script::read_step(s, 0) {
        Ok(Some((x, next))) => step_line(out, x, next),
        Ok(None) => say(out, b"finished\n"),
        Err(BadLine::Malformed) => say(out, b"21\n"),
        Err(BadLine::Unfinished) => say(out, b"22\n"),
    }
}

fn step_line(out: Stdout, x: Step, next: usize) {
    match x {
        Step::R(k, u) => two(out, 'R', k, u, next),
        Step::N(k, u) => two(out, 'N', k, u, next),
        Step::P(k) => one(out, 'P', k, next),
        Step::I(k) => one(out, 'I', k, next),
        Step::C(k) => one(out, 'C', k, next),
        Step::L(k) => one(out, 'L', k, next),
    }
}

fn one(out: Stdout, letter: char, k: CoreNo, next: usize) {
    let _ = println!(out; "{letter}\t{}\t{next}", k.0);
}

fn two(out: Stdout, letter: char, k: CoreNo, u: UnitNo, next: usize) {
    let _ = println!(out; "{letter}\t{}\t{}\t{next}", k.0, u.0);
}

fn header(out: Stdout, s: &[u8]) {
    match script::read_header(s, 0) {
        Ok((c, n, next)) => header_line(out, c, n, next),
        Err(BadHeader::Malformed) => say(out, b"20\n"),
        Err(BadHeader::Unfinished) => say(out, b"22\n"),
    }
}

fn header_line(out: Stdout, c: Counts, n: Ticket, next: usize) {
    let letter = match c.profile {
        Profile::T => 'T',
        Profile::D => 'D',
    };
    let _ = println!(out;
        "{letter}\t{}\t{}\t{}\t{}\t{next}",
        c.cores, c.first, c.second, n.0
    );
}

fn word(out: Stdout, s: &[u8]) {
    let Some(bytes) = s.first_chunk() else {
        return;
    };
    match words::unpack(u32::from_le_bytes(*bytes)) {
        Some(r) => register(out, r),
        None => say(out, b"30\n"),
    }
}

fn register(out: Stdout, r: Register) {
    let Register {
        ticket,
        valid,
        flag,
    } = r;
    let _ = println!(out; "W\t{}\t{}\t{}", ticket.0, u8::from(valid), u8::from(flag));
}

// A line that has no numbers to be written.
fn say(out: Stdout, line: &[u8]) {
    let _ = out.write_all(line);
}
