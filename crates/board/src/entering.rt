// Marks entered on a board's keys, and keys held to thresholds: written once, for every board.
ghost use Rattle.std.specs.Prelude.{◌≡◌};
ghost use Rattle.board.specs.Entering.{entering, entered, held_to};
ghost use Rattle.board.specs.Meaning.{at};

use crate::board_fault::BoardFault;
use crate::boards::Board;
use entry::kind::Entry;

// How entering a share went: it made the entry, was taken by it, or the entry is full for it.
#[derive(Clone, Copy, PartialEq, Eq, Debug)]
pub enum Entered {
    Made,
    Taken,
    Full,
}

// Enters a share on a key. A key at or beyond the size is refused; that and a full entry change
// nothing.
pub fn enter<E: Entry, B: Board<E>>(
    board: &mut B,
    key: u8,
    share: E::Share,
) -> Result<Entered, BoardFault>
    ensures answer { result ≡ entering E.Entry.taking (B.Board.entries board.old) key share }
    ensures after { B.Board.entries board.new ≡ entered E.Entry.making E.Entry.taking (B.Board.entries board.old) key share }
{
    // Kept: two `let .. else`. An absent and a full entry are outcomes and no errors: `?` has nothing to hand up.
    let Some(held) = board.read(key) else {
        board.write(key, E::first(share))?;
        return Ok(Entered::Made);
    };
    let Some(next) = held.take(share) else {
        return Ok(Entered::Full);
    };
    board.write(key, next)?;
    Ok(Entered::Taken)
}

// Whether a key's entry meets a threshold: an absent one does not.
// Kept: a form that the project wants; a condition takes the read apart by `let else`.
pub fn meets<E: Entry, B: Board<E>>(board: &B, key: u8, threshold: E::Threshold) -> bool
    ensures { result ≡ held_to E.Entry.meeting (at (B.Board.entries board.now) key) threshold }
{
    let Some(held) = board.read(key) else {
        return false;
    };
    held.meets(threshold)
}
