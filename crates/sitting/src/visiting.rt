// A visit of the root: a loop over a plain stack.
ghost use Rattle.std.specs.Prelude.{◌≡◌, []};
ghost use Rattle.sitting.specs.Ruled.{VisitsByTheRules, EntersOnce};
ghost use Rattle.sitting.specs.Turns.{stage, turned, outcome, visited};
ghost use Rattle.sitting.specs.declared.turn.Turn.TheVariants.{Enter as Entering};

use crate::executive::Executive;
use crate::frame::Frame;
use crate::turn::Turn;
use arrayvec::ArrayVec;
use bank::banks::Bank;
use board::boards::Board;
use entry::parts::{Ability, Count};
use rules::line::Line;
use rules::sitting_fault::SittingFault;
use rules::status::Status;

// A node is entered once, looked at once by its parent, answers once and looks once past its last child,
// so a visit of 256 nodes takes fewer turns.
const TURNS: u16 = 1_024;

// The status of the root, once it has answered.
fn outcome(turn: Turn, stack: &ArrayVec<Frame, 16>) -> Option<Status>
    ensures { result ≡ outcome turn stack.now.items }
{
    match turn {
        Turn::Answer(status) => stack.is_empty().then_some(status),
        Turn::Enter(_) | Turn::Look(_) => None,
    }
}

impl Executive {
    // One turn of a visit: one step of the machine over the tables.
    fn take_turn<B: Bank, C: Board<Count>, A: Board<Ability>>(
        &mut self,
        stack: &mut ArrayVec<Frame, 16>,
        bank: &mut B,
        counts: &mut C,
        abilities: &mut A,
        trace: &mut [Line],
        turn: Turn,
    ) -> Result<Turn, SittingFault>
        ensures { (result, stage self.new stack.new.items (B.Bank.skills bank.new) (C.Board.entries counts.new, A.Board.entries abilities.new) trace.new) ≡ turned turn (stage self.old stack.old.items (B.Bank.skills bank.old) (C.Board.entries counts.old, A.Board.entries abilities.old) trace.old) }
    {
        match turn {
            Turn::Enter(at) => self.enter(stack, bank, counts, abilities, trace, at),
            Turn::Look(frame) => self.look(stack, bank, trace, frame),
            Turn::Answer(status) => match stack.pop() {
                Some(frame) => self.hear(bank, trace, frame, status),
                None => Ok(turn),
            },
        }
    }

    // Takes turns until the root has answered.
    fn take_turns<B: Bank, C: Board<Count>, A: Board<Ability>>(
        &mut self,
        bank: &mut B,
        counts: &mut C,
        abilities: &mut A,
        trace: &mut [Line],
    ) -> Result<Status, SittingFault>
        ensures { (K : _) × ((result, stage self.new K (B.Bank.skills bank.new) (C.Board.entries counts.new, A.Board.entries abilities.new) trace.new) ≡ visited 1024 (Entering 0) (stage self.old [] (B.Bank.skills bank.old) (C.Board.entries counts.old, A.Board.entries abilities.old) trace.old)) }
    {
        let mut stack = ArrayVec::new();
        let mut turn = Turn::Enter(0);
        for _ in 0..TURNS {
            if let Some(status) = outcome(turn, &stack) {
                return Ok(status);
            }
            turn = self.take_turn(&mut stack, bank, counts, abilities, trace, turn)?;
        }
        Ok(Status::Fail)
    }

    // Visits the root.
    pub(crate) fn visit<B: Bank, C: Board<Count>, A: Board<Ability>>(
        &mut self,
        bank: &mut B,
        counts: &mut C,
        abilities: &mut A,
        trace: &mut [Line],
    ) -> Result<Status, SittingFault>
        ensures by_the_rules { VisitsByTheRules self.old (B.Bank.skills bank.old) (C.Board.entries counts.old, A.Board.entries abilities.old) trace.old result self.new (B.Bank.skills bank.new) (C.Board.entries counts.new, A.Board.entries abilities.new) trace.new }
        ensures once { EntersOnce self.old (B.Bank.skills bank.old) (C.Board.entries counts.old, A.Board.entries abilities.old) trace.old result self.new (B.Bank.skills bank.new) (C.Board.entries counts.new, A.Board.entries abilities.new) trace.new }
    {
        self.take_turns(bank, counts, abilities, trace)
    }
}
