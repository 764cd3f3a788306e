// A program's loop over the pieces of its script, apart from reading and writing.
//
// A program holds one piece of the script and one of the output. A turn is one call on the first bytes of
// the piece, with the whole output lent; before more of the script is read, what is left of the piece
// moves to its front.
//
// Every public function is an entry: none has a `requires`.
#![tactic(auto)]

ghost use Rattle.std.specs.Prelude.{◌≡◌, length, take};
ghost use Rattle.digits.specs.Text.{pasted};
ghost use Rattle.calls.specs.Call.{call, stopped, output};
ghost use Rattle.pieces.specs.Piece.{left, emptied, fronted};

use stops::{Run, Stopped};

// The run with its output taken away.
pub fn emptied(run: Run) -> Run
    ensures { result ≡ emptied run }
{
    Run { wrote: 0, ..run }
}

// The run at the front of the piece.
pub fn fronted(run: Run) -> Run
    ensures { result ≡ fronted run }
{
    Run { place: 0, ..run }
}

// One call on the first bytes of a piece, with the output from its start.
pub fn work(run: Run, piece: &[u8], have: usize, out: &mut [u8]) -> Stopped
    ensures { (result ≡ stopped (call (emptied run) (take have piece.now) out.old)) × (out.new ≡ output (call (emptied run) (take have piece.now) out.old)) }
{
    let n = have.min(piece.len());
    translate::translate(emptied(run), &piece[..n], out)
}

// The bytes from a place on, of the first bytes of a piece, move to its front. Answers how many.
pub fn keep(piece: &mut [u8], place: usize, have: usize) -> usize
    ensures { (result ≡ length (left piece.old place have)) × (piece.new ≡ pasted piece.old 0 (left piece.old place have)) }
{
    let end = have.min(piece.len());
    let start = place.min(end);
    piece.copy_within(start..end, 0);
    end - start
}
