// A node looks at its next child.
ghost use Rattle.std.specs.Prelude.{◌≡◌};
ghost use Rattle.mission.specs.Missions.{meaning};
ghost use Rattle.mission.specs.Places.{node_at};
ghost use Rattle.sitting.specs.Halting.{desk};
ghost use Rattle.sitting.specs.Tables.{beyond};
ghost use Rattle.sitting.specs.Turns.{stage, looked, open_halted, halt_open, par_ends};

use crate::executive::Executive;
use crate::frame::Frame;
use crate::kinds::onward;
use crate::memory::{Memory, Results};
use crate::table::beyond;
use crate::turn::Turn;
use crate::turns::descend;
use arrayvec::ArrayVec;
use bank::banks::Bank;
use mission::node::Node;
use rules::line::Line;
use rules::sitting_fault::SittingFault;
use rules::status::Status;

impl Executive {
    // Halts a child of a par, unless it has a result.
    fn halt_unless<B: Bank>(
        &mut self,
        has_result: bool,
        bank: &mut B,
        trace: &mut [Line],
        child: u16,
    ) -> Result<(), SittingFault>
        ensures { (result, desk self.new (B.Bank.skills bank.new) trace.new) ≡ open_halted has_result child (desk self.old (B.Bank.skills bank.old) trace.old) }
    {
        if has_result {
            return Ok(());
        }
        self.halt_range(bank, trace, child, self.end(child))
    }

    // Halts the children without a result of a par with so many children, in order.
    fn halt_open<B: Bank>(
        &mut self,
        bank: &mut B,
        trace: &mut [Line],
        par: u16,
        kids: u8,
        results: Results,
    ) -> Result<(), SittingFault>
        ensures { (result, desk self.new (B.Bank.skills bank.new) trace.new) ≡ halt_open kids 0 (beyond par 1) results (desk self.old (B.Bank.skills bank.old) trace.old) }
    {
        let mut child = beyond(par, 1);
        for number in 0..kids {
            let end = self.end(child);
            self.halt_unless(results.has(number), bank, trace, child)?;
            child = end;
        }
        Ok(())
    }

    // A par that looked at all its children: where it ends, it halts those without a result.
    fn end_par<B: Bank>(
        &mut self,
        bank: &mut B,
        trace: &mut [Line],
        par: u16,
        kids: u8,
        status: Status,
    ) -> Result<Turn, SittingFault>
        ensures { (K : _) (s : _) → (result, stage self.new K (B.Bank.skills bank.new) s trace.new) ≡ par_ends status kids par (stage self.old K (B.Bank.skills bank.old) s trace.old) }
    {
        if status != Status::Run {
            let results = self.memory(par).results();
            self.halt_open(bank, trace, par, kids, results)?;
            self.remember(par, Memory::Nothing);
        }
        Ok(Turn::Answer(status))
    }

    // A node looks at the child of this frame: it enters the child, goes past it, or has seen all.
    pub(crate) fn look<B: Bank>(
        &mut self,
        stack: &mut ArrayVec<Frame, 16>,
        bank: &mut B,
        trace: &mut [Line],
        frame: Frame,
    ) -> Result<Turn, SittingFault>
        ensures { (s : _) → (result, stage self.new stack.new.items (B.Bank.skills bank.new) s trace.new) ≡ looked (node_at (meaning self.old.mission).nodes frame.node) frame (stage self.old stack.old.items (B.Bank.skills bank.old) s trace.old) }
    {
        match self.node(frame.node) {
            Node::Group { kind, .. } => {
                if self.is_last(frame) {
                    self.remember(frame.node, Memory::Nothing);
                    return Ok(Turn::Answer(onward(kind)));
                }
                Ok(descend(stack, frame))
            }
            Node::Par { kids, need } => {
                let results = self.memory(frame.node).results();
                if self.is_last(frame) {
                    return self.end_par(bank, trace, frame.node, kids, results.verdict(kids, need));
                }
                if results.has(frame.number) {
                    return Ok(Turn::Look(self.next(frame)));
                }
                Ok(descend(stack, frame))
            }
            // No other node looks at its children.
            _ => Ok(Turn::Answer(Status::Fail)),
        }
    }
}
