// The boards, each with its invariants.
// Kept: what is used of a table lies beside it. The project wants a plain table for each kind of
// entry and no call that allocates; a vector of fixed room lies in an array of a type parameter.
ghost use Rattle.std.specs.Prelude.{◌≡◌, ◌≤◌, length, take};
ghost use Rattle.board.specs.Laying.{laid, present};

use crate::size::Size;
use crate::table::Tabled;
use entry::parts::{Ability, Count};

// Entries by key: the first `size` cells.
#[derive(Drop)]
pub struct Cells<E: Tabled> {
    pub(crate) size: Size,
    pub(crate) table: E::Cells,
    ghost whole: { length (E.Cells.rows table) ≡ 32 },
}

// Entries in order of first writing: the first `used` pairs of the table. There are as many as
// keys that hold an entry, so there is room for every key.
#[derive(Drop)]
pub struct Pairs<E: Tabled> {
    pub(crate) size: Size,
    pub(crate) used: u8,
    pub(crate) table: E::Pairs,
    ghost whole: { length (E.Pairs.rows table) ≡ 32 },
    ghost within: { used ≤ size.value },
    ghost once: { used ≡ present (laid size.value (take used (E.Pairs.rows table))) },
}

pub type CountCells = Cells<Count>;

pub type AbilityCells = Cells<Ability>;

pub type CountPairs = Pairs<Count>;

pub type AbilityPairs = Pairs<Ability>;
