// What calls check of the named skills and the boards, asked of each node; `proofs/Checking.antt` has it of
// the named skills.
ghost use Rattle.std.specs.Prelude.{◌≡◌, ◌||◌, length, nat_lt, not};
ghost use Rattle.mission.specs.Missions.{meaning};
ghost use Rattle.rules.specs.Leaves.{runs_in};
ghost use Rattle.rules.specs.Sittings.{unlike};
ghost use Rattle.sitting.specs.Checks.{any_named};
ghost use Rattle.sitting.specs.Desks.{state_of, is_running};

use crate::executive::Executive;
use crate::leaf_state::LeafState;
use bank::banks::Bank;
use board::boards::Board;
use entry::parts::{Ability, Count};

impl Executive {
    // Is a named skill at or beyond the width?
    pub(crate) fn any_beyond(&self, width: u8) -> bool
        ensures { result ≡ any_named (λ k. not (nat_lt k width)) (meaning self.now.mission).nodes }
    {
        self.mission
            .nodes()
            .iter()
            .any(|node| node.skill().is_some_and(|skill| skill >= width))
    }

    // Does a named skill run in the bank?
    pub(crate) fn any_runs<B: Bank>(&self, bank: &B) -> bool
        ensures { result ≡ any_named (λ k. runs_in (B.Bank.skills bank.now) k) (meaning self.now.mission).nodes }
    {
        self.mission.nodes().iter().any(|node| node
            .skill()
            .is_some_and(|skill| bank.running(skill)))
    }

    // Do the bank and the sitting differ on whether a named skill runs?
    pub(crate) fn any_differs<B: Bank>(&self, bank: &B) -> bool
        ensures { result ≡ any_named (λ k. unlike (runs_in (B.Bank.skills bank.now) k) (is_running (state_of self.now.ledger k))) (meaning self.now.mission).nodes }
    {
        self.mission.nodes().iter().any(|node| node
            .skill()
            .is_some_and(|skill| self.differs(bank, skill)))
    }

    fn differs<B: Bank>(&self, bank: &B, skill: u8) -> bool
        ensures { result ≡ unlike (runs_in (B.Bank.skills bank.now) skill) (is_running (state_of self.now.ledger skill)) }
    {
        bank.running(skill) != (self.ledger.state(skill) == LeafState::Running)
    }

    // Is a board below its declared number?
    pub(crate) fn too_small<C: Board<Count>, A: Board<Ability>>(
        &self,
        counts: &C,
        abilities: &A,
    ) -> bool
        ensures { result ≡ (nat_lt (length (C.Board.entries counts.now)) (meaning self.now.mission).counts || nat_lt (length (A.Board.entries abilities.now)) (meaning self.now.mission).abilities) }
    {
        counts.size() < self.mission.counts() || abilities.size() < self.mission.abilities()
    }
}
