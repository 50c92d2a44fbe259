// Skill leaves visited and stopped.
ghost use Rattle.std.specs.Prelude.{◌≡◌};
ghost use Rattle.sitting.specs.Desks.{bench, state_of};
ghost use Rattle.sitting.specs.Acts.{hear, started_leaf, visit_skill, stop_skill};

use crate::leaf::SkillLeaf;
use crate::leaf_state::LeafState;
use crate::ledger::Ledger;
use crate::marks::bring;
use bank::banks::Bank;
use bank::kinds::{Ending, Reply};
use board::boards::Board;
use entry::parts::{Ability, Count};
use rules::line::Line;
use rules::sitting_fault::SittingFault;
use rules::status::Status;
use rules::word::Word;

impl Ledger {
    // Starts the skill of an idle leaf.
    fn start<B: Bank>(
        &mut self,
        bank: &mut B,
        trace: &mut [Line],
        leaf: SkillLeaf,
    ) -> Result<(), SittingFault>
        ensures { (result, bench (B.Bank.skills bank.new) trace.new self.new) ≡ started_leaf leaf.skill leaf.device (bench (B.Bank.skills bank.old) trace.old self.old) }
    {
        bank.start(leaf.skill)?;
        self.begin(leaf.skill, leaf.device);
        self.note(trace, Word::Start, leaf.skill, 0);
        Ok(())
    }

    // What the leaf makes of the bank's reply to its poll.
    fn hear<C: Board<Count>, A: Board<Ability>>(
        &mut self,
        counts: &mut C,
        abilities: &mut A,
        trace: &mut [Line],
        leaf: SkillLeaf,
        reply: Reply,
    ) -> Result<Status, SittingFault>
        ensures { (s : _) → (result, bench s trace.new self.new, (C.Board.entries counts.new, A.Board.entries abilities.new)) ≡ hear (state_of self.old leaf.skill) reply leaf.skill leaf.target (bench s trace.old self.old) (C.Board.entries counts.old, A.Board.entries abilities.old) }
    {
        match (self.state(leaf.skill), reply) {
            (LeafState::Idle, _) => Err(SittingFault::SkillsDiffer),
            (LeafState::Running, Reply::Run) => {
                self.note(trace, Word::Run, leaf.skill, 0);
                Ok(Status::Run)
            }
            (LeafState::Running, Reply::Ended(Ending::Fail)) => {
                self.end(leaf.skill);
                self.note(trace, Word::Fail, leaf.skill, 0);
                Ok(Status::Fail)
            }
            (LeafState::Running, Reply::Ended(Ending::Pass(mark))) => {
                self.end(leaf.skill);
                self.note(trace, Word::Pass, leaf.skill, i32::from(mark));
                if bring(counts, abilities, leaf.target, mark)? {
                    return Ok(Status::Pass);
                }
                self.note(trace, Word::Full, leaf.skill, 0);
                Ok(Status::Fail)
            }
        }
    }

    // Visits a skill leaf.
    pub(crate) fn visit_skill<B: Bank, C: Board<Count>, A: Board<Ability>>(
        &mut self,
        bank: &mut B,
        counts: &mut C,
        abilities: &mut A,
        trace: &mut [Line],
        leaf: SkillLeaf,
    ) -> Result<Status, SittingFault>
        ensures { (result, bench (B.Bank.skills bank.new) trace.new self.new, (C.Board.entries counts.new, A.Board.entries abilities.new)) ≡ visit_skill leaf.skill leaf.device leaf.target (bench (B.Bank.skills bank.old) trace.old self.old) (C.Board.entries counts.old, A.Board.entries abilities.old) }
    {
        if self.state(leaf.skill) == LeafState::Idle {
            if self.is_blocked(leaf.device) {
                self.note(trace, Word::Blocked, leaf.skill, 0);
                return Ok(Status::Fail);
            }
            self.start(bank, trace, leaf)?;
        }
        let reply = bank.poll(leaf.skill)?;
        self.hear(counts, abilities, trace, leaf, reply)
    }

    // Halts a skill if its leaf runs.
    pub(crate) fn stop_skill<B: Bank>(
        &mut self,
        bank: &mut B,
        trace: &mut [Line],
        skill: u8,
    ) -> Result<(), SittingFault>
        ensures { (result, bench (B.Bank.skills bank.new) trace.new self.new) ≡ stop_skill skill (bench (B.Bank.skills bank.old) trace.old self.old) }
    {
        if self.state(skill) == LeafState::Running {
            bank.halt(skill)?;
            self.end(skill);
            self.note(trace, Word::Halt, skill, 0);
        }
        Ok(())
    }
}
