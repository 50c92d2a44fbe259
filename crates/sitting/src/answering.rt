// A node hears the status of its child.
ghost use Rattle.std.specs.Prelude.{◌≡◌};
ghost use Rattle.mission.specs.Missions.{meaning};
ghost use Rattle.mission.specs.Places.{node_at};
ghost use Rattle.sitting.specs.Turns.{stage, group_answered, answered, counted, ends_with, keeping};

use crate::executive::Executive;
use crate::frame::Frame;
use crate::kinds::{counted as counted_status, counts_after, exchanged, goes_on_after, remembers};
use crate::memory::Memory;
use crate::turn::Turn;
use bank::banks::Bank;
use mission::node::{GroupKind, LoopKind, Node};
use rules::line::Line;
use rules::sitting_fault::SittingFault;
use rules::status::Status;

impl Executive {
    // A node that does not run on forgets what it remembered.
    fn end_with(&mut self, status: Status, node: u16)
        ensures { (K : _) (b : _) (s : _) (t : _) → stage self.new K b s t ≡ ends_with status node (stage self.old K b s t) }
    {
        if status != Status::Run {
            self.remember(node, Memory::Nothing);
        }
    }

    // A group goes on to its next child, or stops: one without memory halts its later children then.
    fn hear_in_group<B: Bank>(
        &mut self,
        bank: &mut B,
        trace: &mut [Line],
        kind: GroupKind,
        frame: Frame,
        status: Status,
    ) -> Result<Turn, SittingFault>
        ensures { (K : _) (s : _) → (result, stage self.new K (B.Bank.skills bank.new) s trace.new) ≡ group_answered kind frame status (stage self.old K (B.Bank.skills bank.old) s trace.old) }
    {
        let end = self.end(frame.child);
        if goes_on_after(kind, status) {
            let next = self.next(frame);
            if remembers(kind) {
                let ahead = end.saturating_sub(frame.node).saturating_sub(1);
                self.remember(frame.node, Memory::Child(ahead));
            }
            return Ok(Turn::Look(next));
        }
        if !remembers(kind) {
            self.halt_range(bank, trace, end, self.end(frame.node))?;
        }
        self.end_with(status, frame.node);
        Ok(Turn::Answer(status))
    }

    // A par keeps the result of its child, and goes on.
    fn hear_in_par(&mut self, frame: Frame, status: Status)
        ensures { (K : _) (b : _) (s : _) (t : _) → stage self.new K b s t ≡ keeping status frame (stage self.old K b s t) }
    {
        if status != Status::Run {
            let results = self.memory(frame.node).results();
            let kept = results.with(frame.number, status);
            self.remember(frame.node, Memory::Results(kept));
        }
    }

    // A loop counts one more, and ends on reaching its times.
    fn count(&mut self, kind: LoopKind, times: u16, node: u16) -> Turn
        ensures { (K : _) (b : _) (s : _) (t : _) → (result, stage self.new K b s t) ≡ counted kind times node (stage self.old K b s t) }
    {
        let count = self.memory(node).count().saturating_add(1);
        if count < times {
            self.remember(node, Memory::Count(count));
            return Turn::Answer(Status::Run);
        }
        self.remember(node, Memory::Nothing);
        Turn::Answer(counted_status(kind))
    }

    // The node of this frame hears the status of its child.
    pub(crate) fn hear<B: Bank>(
        &mut self,
        bank: &mut B,
        trace: &mut [Line],
        frame: Frame,
        status: Status,
    ) -> Result<Turn, SittingFault>
        ensures { (K : _) (s : _) → (result, stage self.new K (B.Bank.skills bank.new) s trace.new) ≡ answered (node_at (meaning self.old.mission).nodes frame.node) frame status (stage self.old K (B.Bank.skills bank.old) s trace.old) }
    {
        match self.node(frame.node) {
            Node::Group { kind, .. } => self.hear_in_group(bank, trace, kind, frame, status),
            Node::Par { .. } => {
                self.hear_in_par(frame, status);
                Ok(Turn::Look(self.next(frame)))
            }
            Node::Not => Ok(Turn::Answer(exchanged(status))),
            Node::Loop { kind, times } => {
                if counts_after(kind, status) {
                    return Ok(self.count(kind, times, frame.node));
                }
                self.end_with(status, frame.node);
                Ok(Turn::Answer(status))
            }
            // A leaf has no children.
            _ => Ok(Turn::Answer(status)),
        }
    }
}
