// Images: words read as units, and units written as words.
use crate::bytes::{count, letter};
use crate::next::put_next;
use crate::register::put_register;
use crate::table::{IMAGE_UNITS, counts, units};
use crate::text::Answers;
use images::ImageRefusal;
use parts::{Counts, LockUnit};

// The most words that a case reads or lends.
pub(crate) const WORDS_MOST: usize = 600;

// Document 01's number for an image's refusal.
fn refusal_number(e: ImageRefusal) -> u16 {
    match e {
        ImageRefusal::OutOfRange => 20,
        ImageRefusal::BadImage => 30,
    }
}

// The image of so many words as the case has.
pub(crate) fn answer_reading(s: &[u8], a: &mut Answers<'_>) {
    let mut space = [0; WORDS_MOST];
    let (Some(words), Some(bytes)) = (space.get_mut(..count(s, 7)), s.get(9..)) else {
        return;
    };
    read_words(bytes, words);
    let c = counts(s);
    match images::read_image(c, words) {
        Ok(units) => {
            a.head(letter(s), 0);
            put_image(a, c, &units);
        }
        Err(e) => a.head(letter(s), refusal_number(e)),
    }
}

fn read_words(s: &[u8], words: &mut [u32]) {
    for (w, bytes) in words.iter_mut().zip(s.as_chunks().0) {
        *w = u32::from_le_bytes(*bytes);
    }
}

// The units that an image of these counts has.
fn put_image(a: &mut Answers<'_>, c: Counts, units: &[LockUnit]) {
    let n = usize::from(c.first) + usize::from(c.second);
    for x in units.iter().take(n) {
        put_unit(a, c, x);
    }
}

// Its registers, and last its next in line.
fn put_unit(a: &mut Answers<'_>, c: Counts, x: &LockUnit) {
    for r in x.registers.iter().take(usize::from(c.cores)) {
        put_register(a, *r);
    }
    put_next(a, x.next);
}

// The image written into so many words as the case lends.
pub(crate) fn answer_writing(s: &[u8], a: &mut Answers<'_>) {
    let mut space = [0; WORDS_MOST];
    let Some(lent) = space.get_mut(..count(s, 7)) else {
        return;
    };
    match images::write_image(counts(s), units(s, IMAGE_UNITS), lent) {
        Ok(()) => {
            a.head(letter(s), 0);
            put_words(a, lent);
        }
        Err(e) => a.head(letter(s), refusal_number(e)),
    }
}

fn put_words(a: &mut Answers<'_>, words: &[u32]) {
    for w in words {
        a.field(*w);
    }
}
