// The interface of a board. Its meaning is a list of optional entries as long as its size, which
// never changes.
ghost use Rattle.std.specs.Prelude.{◌≡◌, ◌≤◌, List, length, Option as Perhaps};
ghost use Rattle.board.specs.Meaning.{at, answer, written};

use crate::board_fault::BoardFault;
use entry::kind::Entry;

pub trait Board<E: Entry> {
    ghost entries: { Self → List (Perhaps E) };

    fn size(&self) -> u8
        ensures { result ≡ length (entries self.now) };

    // What a key holds; a key at or beyond the size is absent.
    fn read(&self, key: u8) -> Option<E>
        ensures { result ≡ at (entries self.now) key };

    // Sets a key and no other, or refuses one at or beyond the size and changes nothing.
    fn write(&mut self, key: u8, value: E) -> Result<(), BoardFault>
        ensures answer { result ≡ answer (entries self.old) key }
        ensures after { entries self.new ≡ written (entries self.old) key value };

    ghost few: { (b : Self) → length (entries b) ≤ 32 };
}
