// Answers as text, gathered in the output and written when much of it stands there.
use itoa::Buffer;
use std::io::Stdout;

// The room that an answer's fields never use up.
const ROOM: usize = 32768;

// The answers that wait to be written: so many of the bytes lent for them.
#[derive(Drop)]
pub(crate) struct Answers<'a> {
    pub(crate) to: Stdout,
    pub(crate) out: &'a mut [u8],
    pub(crate) wrote: usize,
}

impl Answers<'_> {
    // Writes the answers that wait. Answers whether they could be written.
    pub(crate) fn flush(&mut self) -> bool {
        let (to, n) = (self.to, self.wrote);
        let Some(text) = self.out.get(..n) else {
            return false;
        };
        let sent = to.write_all(text).is_ok();
        self.wrote = 0;
        sent
    }

    // Makes room for an answer where little is left.
    pub(crate) fn ease(&mut self) {
        if self.wrote >= ROOM {
            self.flush();
        }
    }

    // Puts bytes behind the answers, as many as have room.
    pub(crate) fn put(&mut self, text: &[u8]) {
        let mut at = self.wrote;
        for b in text {
            if let Some(place) = self.out.get_mut(at) {
                *place = *b;
                at += 1;
            }
        }
        self.wrote = at;
    }

    // A tab and a number.
    pub(crate) fn field(&mut self, n: impl Into<u64>) {
        self.put(b"\t");
        self.put(Buffer::new().format(n.into()).as_bytes());
    }

    // A letter and a number.
    pub(crate) fn head(&mut self, letter: u8, n: u16) {
        self.put(&[letter]);
        self.field(n);
    }
}
