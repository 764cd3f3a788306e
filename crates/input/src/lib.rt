// A program's input, read into lent bytes.
#![tactic(auto)]

ghost use Rattle.std.specs.Prelude.{◌≤◌, length};

use std::io::Read;

// Reads until the piece is full, the input ends or a read fails. Answers how many bytes it put at the piece's start.
pub fn fill<R: Read>(input: &mut R, piece: &mut [u8]) -> usize
    ensures { result ≤ length piece.new }
{
    let mut done = 0;
    while let Ok(n @ 1..) = input.read(&mut piece[done..]) {
        done += n;
    }
    done
}
