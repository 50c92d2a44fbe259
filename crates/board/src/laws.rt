// What the rules of boards promise, each as the contract of a small function.
// Kept: the clause `only` in each law of a write or a mark, since it is part of each theorem.
ghost use Rattle.std.specs.Prelude.{◌≡◌};
ghost use Rattle.entry.specs.Abilities.{ability_makes, ability_takes};
ghost use Rattle.entry.specs.Counts.{count_makes, count_takes};
ghost use Rattle.board.specs.Entering.{entering, entered};
ghost use Rattle.board.specs.Laws.{Alike, ReadAlike, OnlyAt, Sets, Grows, CountGrows, AbilityGrows};
ghost use Rattle.board.specs.Meaning.{answer, written};
ghost use Rattle.board.specs.Writes.{all_written, refusals};

use crate::board_fault::BoardFault;
use crate::boards::Board;
use crate::entering::{Entered, enter};
use crate::parts::{Cells, Pairs};
use crate::table::Tabled;
use crate::writes::write_all;
use entry::kind::Entry;
use entry::parts::{Ability, Count, Mark, Weighed};

// A write sets its key and no other, and keeps the size; one that is refused changes nothing.
pub fn write_sets<E: Entry, B: Board<E>>(board: &mut B, key: u8, value: E) -> Result<(), BoardFault>
    ensures answer { result ≡ answer (B.Board.entries board.old) key }
    ensures after { B.Board.entries board.new ≡ written (B.Board.entries board.old) key value }
    ensures sets { Sets key value (B.Board.entries board.old) (B.Board.entries board.new) result }
    ensures only { OnlyAt key (B.Board.entries board.old) (B.Board.entries board.new) }
{
    board.write(key, value)
}

// Two boards begun equal and given the same writes refuse the same and read the same at every key.
pub fn same_writes<E: Entry, B: Board<E>, C: Board<E>>(
    one: &mut B,
    two: &mut C,
    writes: &[(u8, E)],
) -> (usize, usize)
    ensures answer { result ≡ (refusals (B.Board.entries one.old) writes.now, refusals (C.Board.entries two.old) writes.now) }
    ensures first { B.Board.entries one.new ≡ all_written (B.Board.entries one.old) writes.now }
    ensures second { C.Board.entries two.new ≡ all_written (C.Board.entries two.old) writes.now }
    ensures alike { Alike (B.Board.entries one.old) (C.Board.entries two.old) (B.Board.entries one.new) (C.Board.entries two.new) result.0 result.1 }
{
    (write_all(one, writes), write_all(two, writes))
}

// Cells and pairs of a kind of entry, given the same writes, read the same.
pub fn entries_alike<E: Tabled>(
    size: u8,
    writes: &[(u8, E)],
    key: u8,
) -> Result<(Option<E>, Option<E>), BoardFault>
    ensures { ReadAlike size writes.now key result }
{
    let mut cells = Cells::new(size)?;
    let mut pairs = Pairs::new(size)?;
    same_writes(&mut cells, &mut pairs, writes);
    Ok((cells.read(key), pairs.read(key)))
}

// Kept: two instances of `entries_alike`, each a public name for a reader to look up.
// The law of cells and pairs, of counts.
pub fn counts_alike(
    size: u8,
    writes: &[(u8, Count)],
    key: u8,
) -> Result<(Option<Count>, Option<Count>), BoardFault>
    ensures { ReadAlike size writes.now key result }
{
    entries_alike::<Count>(size, writes, key)
}

// The law of cells and pairs, of abilities.
pub fn abilities_alike(
    size: u8,
    writes: &[(u8, Ability)],
    key: u8,
) -> Result<(Option<Ability>, Option<Ability>), BoardFault>
    ensures { ReadAlike size writes.now key result }
{
    entries_alike::<Ability>(size, writes, key)
}

// A share entered on an entry that is not full makes of it what it takes, and touches no other key.
// Kept: the law stands apart from `enter`, so that a caller of `enter` isn't handed it.
pub fn enter_grows<E: Entry, B: Board<E>>(
    board: &mut B,
    key: u8,
    share: E::Share,
) -> Result<Entered, BoardFault>
    ensures answer { result ≡ entering E.Entry.taking (B.Board.entries board.old) key share }
    ensures after { B.Board.entries board.new ≡ entered E.Entry.making E.Entry.taking (B.Board.entries board.old) key share }
    ensures grows { Grows E.Entry.taking key share (B.Board.entries board.old) (B.Board.entries board.new) }
    ensures only { OnlyAt key (B.Board.entries board.old) (B.Board.entries board.new) }
{
    enter(board, key, share)
}

// Kept: one function for each kind, which states the kind's own arithmetic under a name to look up.
// A mark entered on a count that is not full adds exactly it, and touches no other key.
pub fn count_grows<B: Board<Count>>(
    board: &mut B,
    key: u8,
    mark: Mark,
) -> Result<Entered, BoardFault>
    ensures answer { result ≡ entering count_takes (B.Board.entries board.old) key mark }
    ensures after { B.Board.entries board.new ≡ entered count_makes count_takes (B.Board.entries board.old) key mark }
    ensures grows { CountGrows key mark (B.Board.entries board.old) (B.Board.entries board.new) }
    ensures only { OnlyAt key (B.Board.entries board.old) (B.Board.entries board.new) }
{
    enter_grows(board, key, mark)
}

// A weighed mark entered on an ability that is not full adds exactly it, and touches no other key.
pub fn ability_grows<B: Board<Ability>>(
    board: &mut B,
    key: u8,
    share: Weighed,
) -> Result<Entered, BoardFault>
    ensures answer { result ≡ entering ability_takes (B.Board.entries board.old) key share }
    ensures after { B.Board.entries board.new ≡ entered ability_makes ability_takes (B.Board.entries board.old) key share }
    ensures grows { AbilityGrows key share (B.Board.entries board.old) (B.Board.entries board.new) }
    ensures only { OnlyAt key (B.Board.entries board.old) (B.Board.entries board.new) }
{
    enter_grows(board, key, share)
}
