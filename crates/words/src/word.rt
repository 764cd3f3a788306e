// A register word: bits 0 to 15 ticket, bit 16 valid, bit 17 flag, the rest 0.
ghost use Rattle.std.specs.Prelude.{◌≡◌, cond, ◌<◌};
ghost use Rattle.words.specs.Word.{word_of, packable, pack, register_of, is_good, unpack, packed_number, unpacked_number};

use parts::Register;
use ticket::Ticket;

// The word, by shifts.
fn word_of(r: Register) -> u32
    ensures { result ≡ word_of r }
{
    u32::from(r.ticket.0) | (u32::from(r.valid) << 16) | (u32::from(r.flag) << 17)
}

// Whether a register is one that a word can show: valid, or blank.
fn packable(r: Register) -> bool
    ensures { result ≡ packable r }
{
    r.valid | ((r.ticket.0 == 0) & !r.flag)
}

// The word of a register, or none, which is 30: an invalid register has ticket 0 and no flag.
pub fn pack(r: Register) -> Option<u32>
    ensures { (result ≡ pack r) × (packed_number result ≡ cond (packable r) 0 30) }
{
    packable(r).then_some(word_of(r))
}

// The register that a word of eighteen bits shows, by masks and shifts.
fn register_of(w: u32) -> Register
    requires { w < 262144 }
    ensures { result ≡ register_of w }
{
    Register {
        ticket: Ticket((w & 0xffff) as u16),
        valid: (w >> 16) & 1 == 1,
        flag: (w >> 17) == 1,
    }
}

// The register of a word, or none, which is 30: bits above 17 are 0, and an invalid register is the word 0.
pub fn unpack(w: u32) -> Option<Register>
    ensures { (result ≡ unpack w) × (unpacked_number result ≡ cond (is_good w) 0 30) }
{
    if (w >> 18) != 0 {
        return None;
    }
    let r = register_of(w);
    packable(r).then_some(r)
}
