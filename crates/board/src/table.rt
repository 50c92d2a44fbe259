// The tables that boards lie in, and the kinds of entry that have them.
ghost use Rattle.std.specs.Prelude.{◌≡◌, List, replicate, None, slice_set};
ghost use Rattle.board.specs.declared.pair.Pair.{Pair};

use crate::pair::Pair;
use entry::kind::Entry;

// A table of rows, as many as when it was made.
pub trait Table<R: Copy> {
    ghost rows: { Self → List R };

    fn as_slice(&self) -> &[R]
        ensures { result.now ≡ rows self.now };

    // Sets a row and no other; past the table there is none to set.
    fn set(&mut self, at: usize, row: R)
        ensures { rows self.new ≡ slice_set (rows self.old) at row };
}

// A kind of entry with the tables that its boards lie in.
pub trait Tabled: Entry {
    type Cells: Table<Option<Self>> + Drop;

    type Pairs: Table<Pair<Self>> + Drop;

    // What a table of pairs holds where no call looks.
    ghost unused: { Pair Self };

    fn empty_cells() -> Self::Cells
        ensures { Self.Cells.rows result ≡ replicate 32 None };

    fn unused_pairs() -> Self::Pairs
        ensures { Self.Pairs.rows result ≡ replicate 32 unused };
}
