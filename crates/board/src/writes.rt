// Many writes given to a board.
ghost use Rattle.std.specs.Prelude.{◌≡◌};
ghost use Rattle.board.specs.Writes.{all_written, refusals};

use crate::boards::Board;
use entry::kind::Entry;

// Gives a board writes in their order, and tells how many of them it refused.
pub fn write_all<E: Entry, B: Board<E>>(board: &mut B, writes: &[(u8, E)]) -> usize
    ensures answer { result ≡ refusals (B.Board.entries board.old) writes.now }
    ensures after { B.Board.entries board.new ≡ all_written (B.Board.entries board.old) writes.now }
{
    // Kept: a loop, since nothing is known of a board that a closure writes to at each item.
    let mut refused = 0;
    for (key, value) in writes {
        if board.write(*key, *value).is_err() {
            refused += 1;
        }
    }
    refused
}
