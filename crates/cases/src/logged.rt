// A log's case: what one call of the check says of it.
use crate::text::Answers;
use console::line_number;
use logs::{LogStop, check, log_number};

pub(crate) fn answer(s: &[u8], a: &mut Answers<'_>) {
    let Some(log) = s.get(3..) else {
        return;
    };
    let c = check(stops::beginning(), log);
    let n = log_number(c.why);
    a.head(b'G', n);
    if n == 0 {
        return a.field(c.run.steps);
    }
    a.field(line_number(c.run));
    if let LogStop::Disagrees(o) = c.why {
        a.field(o.field);
    }
}
