// A board of cells by key.
ghost use Rattle.std.specs.Prelude.{◌≡◌, ◌<◌, ◌≤◌, take, replicate, None, MatchResult, length};
ghost use Rattle.std.proofs.Common.{arith, length-take};
ghost use Rattle.board.specs.Faults.{TooLarge};

use crate::board_fault::BoardFault;
use crate::boards::Board;
use crate::parts::Cells;
use crate::size::Size;
use crate::table::{Table, Tabled};
use entry::kind::Entry;

impl<E: Tabled> Cells<E> {
    // A board of this size with every key absent, or a refusal of a size above 32.
    pub fn new(size: u8) -> Result<Cells<E>, BoardFault>
        ensures { MatchResult result (λ b. (size ≤ 32) × (⟦<Cells<E> as Board<E>>⟧.entries b ≡ replicate size None)) (TooLarge size) }
    {
        Ok(Cells {
            size: Size::new(size)?,
            table: E::empty_cells(),
        })
    }

    // The cells of the board's keys.
    fn cells(&self) -> &[Option<E>]
        ensures { result.now ≡ ⟦<Cells<E> as Board<E>>⟧.entries self.now }
    {
        &self.table.as_slice()[..usize::from(self.size.value)]
    }
}

impl<E: Tabled> Board<E> for Cells<E> {
    ghost entries = { λ b. take b.size.value (E.Cells.rows b.table) };

    ghost few = { λ b. omega (arith, length-take b.size.value (E.Cells.rows b.table)) };

    fn size(&self) -> u8 {
        self.size.value
    }

    fn read(&self, key: u8) -> Option<E> {
        *self.cells().get(usize::from(key))?
    }

    fn write(&mut self, key: u8, value: E) -> Result<(), BoardFault> {
        if key >= self.size.value {
            return Err(BoardFault::Beyond);
        }
        self.table.set(usize::from(key), Some(value));
        Ok(())
    }
}
