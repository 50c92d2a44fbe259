// How many keys a board has.
ghost use Rattle.std.specs.Prelude.{◌≡◌, ◌≤◌, MatchResult};
ghost use Rattle.board.specs.Faults.{TooLarge};

use crate::board_fault::BoardFault;

// A number of keys: 32 at most.
#[derive(Clone, Copy)]
pub(crate) struct Size {
    pub(crate) value: u8,
    ghost few: { value ≤ 32 },
}

impl Size {
    // This many keys, or a refusal of more than 32.
    // Kept `new`, and no TryFrom: a second name for the same.
    pub(crate) fn new(value: u8) -> Result<Size, BoardFault>
        ensures { MatchResult result (λ s. s.value ≡ value) (TooLarge value) }
    {
        if value > 32 {
            return Err(BoardFault::OutOfRange);
        }
        Ok(Size { value })
    }
}
