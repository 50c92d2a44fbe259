// A node is entered, and a child with it.
ghost use Rattle.std.specs.Prelude.{◌≡◌};
ghost use Rattle.mission.specs.Missions.{meaning};
ghost use Rattle.mission.specs.Places.{node_at};
ghost use Rattle.sitting.specs.Turns.{stage, descended, next, first_child, entered, is_last};

use crate::executive::Executive;
use crate::frame::Frame;
use crate::kinds::verdict;
use crate::leaf::SkillLeaf;
use crate::table::beyond;
use crate::turn::Turn;
use arrayvec::ArrayVec;
use bank::banks::Bank;
use board::boards::Board;
use board::entering::meets;
use entry::parts::{Ability, Count};
use mission::node::Node;
use rules::line::Line;
use rules::sitting_fault::SittingFault;
use rules::status::Status;

// The frame of a node's first child.
fn first_child(node: u16) -> Frame
    ensures { result ≡ first_child node }
{
    Frame {
        node,
        child: beyond(node, 1),
        number: 0,
    }
}

// Enters a child. No node is deeper than 16 levels, so there is room for its frame.
pub(crate) fn descend(stack: &mut ArrayVec<Frame, 16>, frame: Frame) -> Turn
    ensures { (result, stack.new.items) ≡ descended frame stack.old.items }
{
    match stack.try_push(frame) {
        Ok(()) => Turn::Enter(frame.child),
        Err(_) => Turn::Answer(Status::Fail),
    }
}

impl Executive {
    // The frame of the child after.
    pub(crate) fn next(&self, frame: Frame) -> Frame
        ensures { result ≡ next self.now frame }
    {
        Frame {
            node: frame.node,
            child: self.end(frame.child),
            number: frame.number.saturating_add(1),
        }
    }

    // Are there no children from here on?
    pub(crate) fn is_last(&self, frame: Frame) -> bool
        ensures { result ≡ is_last self.now frame }
    {
        frame.child == self.end(frame.node)
    }

    // Enters a node.
    pub(crate) fn enter<B: Bank, C: Board<Count>, A: Board<Ability>>(
        &mut self,
        stack: &mut ArrayVec<Frame, 16>,
        bank: &mut B,
        counts: &mut C,
        abilities: &mut A,
        trace: &mut [Line],
        at: u16,
    ) -> Result<Turn, SittingFault>
        ensures { (result, stage self.new stack.new.items (B.Bank.skills bank.new) (C.Board.entries counts.new, A.Board.entries abilities.new) trace.new) ≡ entered (node_at (meaning self.old.mission).nodes at) at (stage self.old stack.old.items (B.Bank.skills bank.old) (C.Board.entries counts.old, A.Board.entries abilities.old) trace.old) }
    {
        match self.node(at) {
            Node::Group { .. } => Ok(Turn::Look(Frame {
                node: at,
                child: beyond(beyond(at, 1), self.memory(at).ahead()),
                number: 0,
            })),
            Node::Par { .. } => Ok(Turn::Look(first_child(at))),
            Node::Not | Node::Loop { .. } => Ok(descend(stack, first_child(at))),
            Node::Skill {
                skill,
                device,
                target,
            } => {
                let leaf = SkillLeaf {
                    skill,
                    device,
                    target,
                };
                self.ledger
                    .visit_skill(bank, counts, abilities, trace, leaf)
                    .map(Turn::Answer)
            }
            Node::Count { key, least } => Ok(Turn::Answer(verdict(meets(counts, key, least)))),
            Node::Ability { key, least } => Ok(Turn::Answer(verdict(meets(abilities, key, least)))),
        }
    }
}
