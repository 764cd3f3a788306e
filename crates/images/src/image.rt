// A table's image: its units in order, each with its cores in order, one word a register, and behind them one for the next in
// line.
ghost use Rattle.std.specs.Prelude.{◌≡◌, true, false, ◌<◌, length, get_or, IfSome, IfNone};
ghost use Rattle.parts.specs.Fold.{every};
ghost use Rattle.parts.specs.Range.{in_range};
ghost use Rattle.words.specs.Word.{packable, is_good};
ghost use Rattle.settling.specs.Shown.{shows_next_lem};
ghost use Rattle.images.specs.Image.{per_unit, unit_count, word_count, unit_in, waiter, placed, register_at, good_words, unit_of, next_agrees, good_image, read_image, writable, write_answer, words_into, write_left, image_number, due_number};

use parts::{Counts, LockUnit, Next, Register, UNITS, empty_unit, in_range, registered};
use settling::{shown, shows_next};
use ticket::CoreNo;
use words::{pack, unpack};

// Why an image is refused. 20: counts out of range. 30: a bad word or register, another next in line than that of the
// registers, or a number of words that is not units times cores and one.
#[derive(Clone, Copy, Debug, PartialEq, Eq)]
pub enum ImageRefusal {
    OutOfRange,
    BadImage,
}

// What a next in line shows: a register without a flag.
fn waiter(v: Next) -> Register
    ensures { result ≡ waiter v }
{
    Register {
        ticket: v.ticket,
        valid: v.valid,
        flag: false,
    }
}

fn all_good(words: &[u32]) -> bool
    ensures { result ≡ every (λ i. is_good (get_or words.now i 0)) (length words.now) }
{
    words.iter().all(|&w| unpack(w).is_some())
}

// Counts in range.
#[derive(Clone, Copy)]
struct Ranged {
    counts: Counts,
    ghost ranged: { in_range counts ≡ true },
}

impl Ranged {
    fn new(c: Counts) -> Option<Ranged>
        ensures { IfSome result (λ r. r.counts ≡ c) × IfNone result (in_range c ≡ false) }
    {
        if in_range(c) {
            Some(Ranged { counts: c })
        } else {
            None
        }
    }

    // How many words a unit's image has: one for each core, and the next in line.
    fn per_unit(self) -> usize
        ensures { result ≡ per_unit self.counts }
    {
        usize::from(self.counts.cores) + 1
    }

    fn unit_count(self) -> usize
        ensures { result ≡ unit_count self.counts }
    {
        usize::from(self.counts.first) + usize::from(self.counts.second)
    }

    // How many words an image of these counts has.
    fn word_count(self) -> usize
        ensures { result ≡ word_count self.counts }
    {
        self.unit_count() * self.per_unit()
    }

    // What stands at place k of a unit's image: the register of core k, and behind the cores the next in line.
    fn placed(self, x: LockUnit, k: usize) -> Register
        requires { k < per_unit self.counts }
        ensures { result ≡ placed self.counts x k }
    {
        let n = usize::from(self.counts.cores);
        if k == n {
            waiter(x.next)
        } else {
            x.registers[k]
        }
    }

    // What word i shows.
    fn register_at(self, units: [LockUnit; UNITS], i: usize) -> Register
        requires { i < word_count self.counts }
        ensures { result ≡ register_at self.counts units i }
    {
        let m = self.per_unit();
        self.placed(units[i / m], i % m)
    }

    // Whether there are as many words as the counts ask for, and each is good.
    fn good_words(self, words: &[u32]) -> bool
        ensures { result ≡ good_words self.counts words.now }
    {
        (words.len() == self.word_count()) & all_good(words)
    }

    fn good<'a>(self, words: &'a [u32]) -> Option<GoodWords<'a>>
        ensures { IfSome result (λ g. (g.ranged.counts ≡ self.counts) × (g.words.now ≡ words.now)) × IfNone result (good_words self.counts words.now ≡ false) }
    {
        if self.good_words(words) {
            Some(GoodWords {
                ranged: self,
                words,
            })
        } else {
            None
        }
    }

    // Whether what stands at every place within the counts is what a word can show.
    fn all_fit(self, units: [LockUnit; UNITS]) -> bool
        ensures { result ≡ every (λ i. packable (register_at self.counts units i)) (word_count self.counts) }
    {
        (0..self.word_count()).all(|i| pack(self.register_at(units, i)).is_some())
    }

    // Whether every unit within the counts shows its next in line.
    fn all_show(self, units: [LockUnit; UNITS]) -> bool
        ensures { result ≡ every (λ u. shows_next_lem self.counts.cores (unit_in units u)) (unit_count self.counts) }
    {
        let within = &units[..self.unit_count()];
        within.iter().all(|&x| shows_next(self.counts.cores, x))
    }

    // Whether the units can be written as an image into this room.
    fn writable(self, units: [LockUnit; UNITS], room: usize) -> bool
        ensures { result ≡ writable self.counts units room }
    {
        (room == self.word_count()) & self.all_fit(units) & self.all_show(units)
    }

    // Writes each register's word to its place.
    fn write_words(self, units: [LockUnit; UNITS], out: &mut [u32])
        requires { writable self.counts units (length out.old) ≡ true }
        ensures { out.new ≡ words_into self.counts units out.old }
    {
        for (i, w) in out.iter_mut().enumerate() {
            *w = pack(self.register_at(units, i)).unwrap();
        }
    }
}

// Good words for counts in range.
#[derive(Clone, Copy)]
struct GoodWords<'a> {
    ranged: Ranged,
    words: &'a [u32],
    ghost good: { good_words ranged.counts words.now ≡ true },
}

impl GoodWords<'_> {
    // Unit u: the registers of its cores' words, and who is next in line by these.
    fn unit_of(&self, u: usize) -> LockUnit
        requires { u < unit_count self.now.ranged.counts }
        ensures { result ≡ unit_of self.now.ranged.counts self.now.words.now u }
    {
        let at = u * self.ranged.per_unit();
        let n = self.ranged.counts.cores;
        let mut x = empty_unit();
        for k in 0..n {
            let r = unpack(self.words[at + usize::from(k)]).unwrap();
            x = registered(x, CoreNo(k), r);
        }
        shown(n, x)
    }

    // Whether the word behind the cores' of unit u is that of who is next in line.
    fn next_agrees(&self, u: usize, x: LockUnit) -> bool
        requires { (u < unit_count self.now.ranged.counts) × (x ≡ unit_of self.now.ranged.counts self.now.words.now u) }
        ensures { result ≡ next_agrees self.now.ranged.counts self.now.words.now u }
    {
        let n = usize::from(self.ranged.counts.cores);
        let i = u * self.ranged.per_unit() + n;
        self.words[i] == pack(waiter(x.next)).unwrap()
    }

    // The units, if each word behind the cores' is that of who is next in line.
    fn read_units(&self) -> Result<[LockUnit; UNITS], ImageRefusal>
        ensures { result ≡ read_image self.now.ranged.counts self.now.words.now }
    {
        let mut xs = [empty_unit(); UNITS];
        for u in 0..self.ranged.unit_count() {
            let x = self.unit_of(u);
            if !self.next_agrees(u, x) {
                return Err(ImageRefusal::BadImage);
            }
            xs[u] = x;
        }
        Ok(xs)
    }
}

// The registers of an image, and who is next in line at each unit, for given counts.
pub fn read_image(c: Counts, words: &[u32]) -> Result<[LockUnit; UNITS], ImageRefusal>
    ensures { (result ≡ read_image c words.now) × (image_number result ≡ due_number c (good_image c words.now)) }
{
    Ranged::new(c)
        .ok_or(ImageRefusal::OutOfRange)?
        .good(words)
        .ok_or(ImageRefusal::BadImage)?
        .read_units()
}

// Writes the image of the units within the counts. The room must be exactly its words; a refusal
// changes none.
pub fn write_image(c: Counts, units: [LockUnit; UNITS], out: &mut [u32]) -> Result<(), ImageRefusal>
    ensures { (result ≡ write_answer c units (length out.old)) × (out.new ≡ write_left c units out.old) × (image_number result ≡ due_number c (writable c units (length out.old))) }
{
    let ranged = Ranged::new(c).ok_or(ImageRefusal::OutOfRange)?;
    if !ranged.writable(units, out.len()) {
        return Err(ImageRefusal::BadImage);
    }
    ranged.write_words(units, out);
    Ok(())
}
