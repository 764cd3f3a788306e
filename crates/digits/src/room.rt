// What a writer of whole lines answers, and whether there is room for one.
ghost use Rattle.std.specs.Prelude.{◌≡◌, ◌+◌, leb};

// The place after the line, or why there is none.
pub type Written = Result<usize, Unwritten>;

// 20, a header out of range; 23, no room for the whole line.
#[derive(Clone, Copy, Debug, PartialEq, Eq)]
pub enum Unwritten {
    OutOfRange,
    NoRoom,
}

// Seam: whether n bytes from a place on are among so many.
pub fn has_room(len: usize, at: usize, n: usize) -> bool
    ensures { result ≡ leb (at + n) len }
{
    at.checked_add(n).is_some_and(|end| end <= len)
}
