// The plain tables of each kind of entry.
ghost use Rattle.std.specs.Prelude.{pos};
ghost use Rattle.entry.specs.Abilities.{ability_in};
ghost use Rattle.entry.specs.Kinds.{whole_in};

use crate::pair::Pair;
use crate::table::{Table, Tabled};
use entry::parts::{Ability, Count};

impl Tabled for Count {
    type Cells = [Option<Count>; 32];

    type Pairs = [Pair<Count>; 32];

    ghost unused = { record { key = 0; held = whole_in 1000000 (pos 0) tt } };

    fn empty_cells() -> [Option<Count>; 32] {
        [None; 32]
    }

    fn unused_pairs() -> [Pair<Count>; 32] {
        let held = Count::new(0).unwrap();
        [Pair { key: 0, held }; 32]
    }
}

impl Tabled for Ability {
    type Cells = [Option<Ability>; 32];

    type Pairs = [Pair<Ability>; 32];

    ghost unused = { record { key = 0; held = ability_in (pos 0) 1 tt } };

    fn empty_cells() -> [Option<Ability>; 32] {
        [None; 32]
    }

    fn unused_pairs() -> [Pair<Ability>; 32] {
        let held = Ability::new(0, 1).unwrap();
        [Pair { key: 0, held }; 32]
    }
}

// No board lies in an array of a type parameter: each kind names its own plain tables above.
impl<R: Copy> Table<R> for [R; 32] {
    ghost rows = { λ t. t };

    fn as_slice(&self) -> &[R] {
        self
    }

    fn set(&mut self, at: usize, row: R) {
        // Kept: a slice's `get_mut` promises what it lends, and not what the slice holds once that is written.
        if at < self.len() {
            self[at] = row;
        }
    }
}
