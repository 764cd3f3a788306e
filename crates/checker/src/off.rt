// A line of the log that shows another answer than the rules give.
use console::{line_number, say_line, say_unwritten};
use loglines::Off;
use std::fmt::{Display, Formatter, Result, Write};
use std::io::Stderr;
use stops::Run;

// 40, the line and the field, and what is wrong with it.
pub(crate) fn disagree(rt: HostRuntime, run: Run, number: u16, o: Off) {
    if println!(rt; "{number}\t{}\t{}", line_number(run), o.field).is_ok() {
        say_off(rt.stderr(), run, o);
    } else {
        say_unwritten(rt.stderr());
    }
}

fn say_off(err: Stderr, run: Run, o: Off) {
    say_line(err, run);
    let name = name(o);
    let shown = Field(o.shown);
    let given = Field(o.given);
    let _ = println!(err;
        "field {}, {name}: the log shows {shown}, the rules give {given} (40)",
        o.field
    );
}

// What the rules give at a place behind the step part, by its name.
fn name(o: Off) -> &'static str {
    match (o.given, o.place) {
        (None, _) => "one field too many",
        (_, 1) => "answer",
        (_, 2) => "ticket",
        (_, 3) => "number of grants",
        (_, 4) => "unit of grant 1",
        (_, 5) => "core of grant 1",
        (_, 6) => "unit of grant 2",
        _ => "core of grant 2",
    }
}

// What stands in a field, as it is told.
#[derive(Clone, Copy)]
struct Field(Option<u16>);

impl Display for Field {
    fn fmt<W: Write>(&self, f: &mut Formatter<W>) -> Result {
        match self.0 {
            None => f.write_str("nothing"),
            Some(n) => write!(f, "{n}"),
        }
    }
}
