// A register and its word.
use crate::bytes::word;
use crate::text::Answers;
use parts::Register;
use ticket::Ticket;

// The register at a place: ticket, valid, flag.
pub(crate) fn register(s: &[u8], at: usize) -> Register {
    let [low, high, valid, flag] = word(s, at).to_le_bytes();
    Register {
        ticket: Ticket(u16::from_le_bytes([low, high])),
        valid: valid != 0,
        flag: flag != 0,
    }
}

pub(crate) fn put_register(a: &mut Answers<'_>, r: Register) {
    a.field(r.ticket.0);
    a.field(r.valid);
    a.field(r.flag);
}

pub(crate) fn answer_word(s: &[u8], a: &mut Answers<'_>) {
    match words::unpack(word(s, 1)) {
        Some(r) => {
            a.head(b'W', 0);
            put_register(a, r);
        }
        None => a.head(b'W', 30),
    }
}

pub(crate) fn answer_register(s: &[u8], a: &mut Answers<'_>) {
    match words::pack(register(s, 1)) {
        Some(w) => {
            a.head(b'P', 0);
            a.field(w);
        }
        None => a.head(b'P', 30),
    }
}
