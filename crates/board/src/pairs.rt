// A board of pairs in order of first writing.
ghost use Rattle.std.specs.Prelude.{◌≡◌, ◌==◌, ◌<◌, ◌≤◌, take, replicate, None, MatchResult, position, option_map};
ghost use Rattle.std.specs.List.{find};
ghost use Rattle.board.specs.Laying.{laid};
ghost use Rattle.std.proofs.Common.{arith};
ghost use Rattle.board.specs.LayingLemmas.{length_laid};
ghost use Rattle.board.specs.Faults.{TooLarge};

use crate::board_fault::BoardFault;
use crate::boards::Board;
use crate::pair::Pair;
use crate::parts::Pairs;
use crate::size::Size;
use crate::table::{Table, Tabled};
use entry::kind::Entry;

impl<E: Tabled> Pairs<E> {
    // A board of this size with every key absent, or a refusal of a size above 32.
    pub fn new(size: u8) -> Result<Pairs<E>, BoardFault>
        ensures { MatchResult result (λ b. (size ≤ 32) × (⟦<Pairs<E> as Board<E>>⟧.entries b ≡ replicate size None)) (TooLarge size) }
    {
        Ok(Pairs {
            size: Size::new(size)?,
            used: 0,
            table: E::unused_pairs(),
        })
    }

    // The used pairs.
    fn pairs(&self) -> &[Pair<E>]
        ensures { result.now ≡ take self.now.used (E.Pairs.rows self.now.table) }
    {
        &self.table.as_slice()[..usize::from(self.used)]
    }

    // The place of a key's pair, or `None` where the key has none.
    fn place(&self, key: u8) -> Option<usize>
        ensures { result ≡ position (λ p. p.key == key) (take self.now.used (E.Pairs.rows self.now.table)) }
    {
        self.pairs().iter().position(|pair| pair.key == key)
    }

    // What a key's pair holds, or `None` where the key has none.
    fn held(&self, key: u8) -> Option<E>
        ensures { result ≡ option_map (λ p. p.held) (find (λ p. p.key == key) (take self.now.used (E.Pairs.rows self.now.table))) }
    {
        self.pairs()
            .iter()
            .find(|pair| pair.key == key)
            .map(|pair| pair.held)
    }
}

impl<E: Tabled> Board<E> for Pairs<E> {
    ghost entries = { λ b. laid b.size.value (take b.used (E.Pairs.rows b.table)) };

    ghost few = { λ b. omega (arith, length_laid b.size.value (take b.used (E.Pairs.rows b.table))) };

    #[tactic(auto, using(crate::specs::LayingLemmas::length_laid))]
    fn size(&self) -> u8 {
        self.size.value
    }

    #[tactic(auto, using(crate::proofs::Laid::reads))]
    fn read(&self, key: u8) -> Option<E> {
        if key >= self.size.value {
            return None;
        }
        self.held(key)
    }

    #[tactic(auto, using(crate::specs::LayingLemmas::length_laid))]
    fn write(&mut self, key: u8, value: E) -> Result<(), BoardFault> {
        if key >= self.size.value {
            return Err(BoardFault::Beyond);
        }
        let pair = Pair { key, held: value };
        match self.place(key) {
            Some(i) => self.table.set(i, pair),
            None => {
                self.table.set(usize::from(self.used), pair);
                self.used += 1;
            }
        }
        Ok(())
    }
}
