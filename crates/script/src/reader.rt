// The script reader: the lent script bytes and a place in them, over the line parser.
//
// Each function that takes, makes or hands back a reader is thin, and leaves the work to a function of
// plain parameters. `read_step` and `read_header` have plain parameters themselves and say nothing of a reader.
ghost use Rattle.std.specs.Prelude.{◌≡◌};
ghost use Rattle.lines.specs.Reading.{read_step, step_line_number, step_number};
ghost use Rattle.headers.specs.Header.{read_header, header_line_number, header_number};
ghost use Rattle.script.specs.Script.{opened, bytes_from_lem, place_after_lem, read_on};

use headers::{HeaderLine, header_line_at};
use lines::{StepLine, step_line_at};

// The lent script, and the place where the next line starts.
#[derive(Clone, Copy)]
pub struct ScriptReader<'a> {
    pub script: &'a [u8],
    pub place: usize,
}

// What a reader found at its place, and the reader after it.
#[derive(Clone, Copy)]
pub struct ReadOn<'a> {
    pub line: StepLine,
    pub reader: ScriptReader<'a>,
}

// How many bytes stand at a place and after it: none past the end.
fn bytes_from(s: &[u8], at: usize) -> usize
    ensures { result ≡ bytes_from_lem s.now at }
{
    s.len().saturating_sub(at)
}

// Where the line after a step line starts: where it says, or, where there was no step line, at the same place.
fn place_after(line: StepLine, at: usize) -> usize
    ensures { result ≡ place_after_lem line at }
{
    match line {
        Ok(Some((_, next))) => next,
        Ok(None) | Err(_) => at,
    }
}

impl<'a> ScriptReader<'a> {
    // The reader of a script at a place.
    pub fn open(script: &'a [u8], place: usize) -> Self
        ensures { result ≡ opened script.entry place }
    {
        ScriptReader { script, place }
    }

    // The place where the next line starts.
    pub fn place(self) -> usize
        ensures { result ≡ self.entry.place }
    {
        self.place
    }

    // How many bytes of the script are left.
    pub fn left(self) -> usize
        ensures { result ≡ bytes_from_lem self.entry.script.now self.entry.place }
    {
        bytes_from(self.script, self.place)
    }

    // The header at the place.
    pub fn header(self) -> HeaderLine
        ensures { (result ≡ read_header self.entry.script.now self.entry.place) × (header_line_number result ≡ header_number self.entry.script.now self.entry.place) }
    {
        header_line_at(self.script, self.place)
    }

    // The step line at the place, and the reader moved on past it.
    pub fn next(self) -> ReadOn<'a>
        ensures { (result ≡ read_on self.entry) × (step_line_number result.line ≡ step_number self.entry.script.now self.entry.place) }
    {
        let line = step_line_at(self.script, self.place);
        let place = place_after(line, self.place);
        ReadOn {
            line,
            reader: ScriptReader::open(self.script, place),
        }
    }
}

// The step line at a place.
pub fn read_step(s: &[u8], at: usize) -> StepLine
    ensures { (result ≡ read_step s.now at) × (step_line_number result ≡ step_number s.now at) }
{
    ScriptReader::open(s, at).next().line
}

// The header at a place.
pub fn read_header(s: &[u8], at: usize) -> HeaderLine
    ensures { (result ≡ read_header s.now at) × (header_line_number result ≡ header_number s.now at) }
{
    ScriptReader::open(s, at).header()
}
