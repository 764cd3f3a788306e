// A line as it is shown on standard error: its first bytes, those that are not printed as escapes.
use std::fmt::{Display, Formatter, Result, Write};

// So many bytes of a line are shown.
const SHOWN_MOST: usize = 20;

// A line and what stands behind it, shown in quotes, with dots where it goes on. What is not read yet is not waited for.
#[derive(Clone, Copy)]
pub(crate) struct Line<'a>(pub(crate) &'a [u8]);

impl Display for Line<'_> {
    fn fmt<W: Write>(&self, f: &mut Formatter<W>) -> Result {
        f.write_char('"')?;
        for (i, b) in self.0.iter().enumerate() {
            if *b == b'\n' {
                return f.write_char('"');
            }
            if i == SHOWN_MOST {
                break;
            }
            write!(f, "{}", Byte(*b))?;
        }
        f.write_str("\"...")
    }
}

// A byte, shown.
#[derive(Clone, Copy)]
pub(crate) struct Byte(pub(crate) u8);

impl Display for Byte {
    fn fmt<W: Write>(&self, f: &mut Formatter<W>) -> Result {
        let b = self.0;
        match b {
            b'\t' => f.write_str("\\t"),
            b'\r' => f.write_str("\\r"),
            b'"' | b'\\' => write!(f, "\\{}", char::from(b)),
            32..=126 => f.write_char(char::from(b)),
            _ => write!(f, "\\x{b:02x}"),
        }
    }
}
