// A script's case: what the translator program writes for it, and one call with so many bytes lent.
use crate::bytes::count;
use crate::text::Answers;
use stops::{Stop, stop_number};

pub(crate) fn answer(s: &[u8], a: &mut Answers<'_>) {
    if let Some(script) = s.get(3..) {
        translated(script, a);
    }
}

pub(crate) fn answer_lent(s: &[u8], a: &mut Answers<'_>) {
    let mut space = [0; 65536];
    if let (Some(script), Some(lent)) = (s.get(5..), space.get_mut(..count(s, 1))) {
        let x = translate::translate(stops::beginning(), script, lent);
        a.head(b'B', stop_number(x.why));
        a.field(x.run.wrote as u64);
    }
}

// The script is translated, the output emptied whenever it is full, which a script's lines do far fewer
// times than there are turns.
fn translated(script: &[u8], a: &mut Answers<'_>) {
    let mut run = stops::beginning();
    for _ in 0..1000 {
        run.wrote = a.wrote;
        let x = translate::translate(run, script, a.out);
        run = x.run;
        a.wrote = run.wrote;
        if !matches!(x.why, Stop::NoRoom) {
            return end(a, stop_number(x.why));
        }
        a.flush();
    }
}

// The last line where the run was stopped by a number, and the answer's own last line.
fn end(a: &mut Answers<'_>, n: u16) {
    a.ease();
    if n != 0 {
        a.head(b'X', n);
        a.put(b"\n");
    }
    a.put(b"--");
}
