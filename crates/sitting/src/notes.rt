// Lines of the trace, and the states of leaves.
ghost use Rattle.std.specs.Prelude.{◌≡◌};
ghost use Rattle.sitting.specs.Desks.{row_put, one_used, state_of, with_state, begun, ended, blocked};

use crate::leaf_state::LeafState;
use crate::ledger::Ledger;
use rules::line::Line;
use rules::word::Word;

impl Ledger {
    // Writes a line behind those that are used; where there is no room for it, nothing.
    pub(crate) fn note(&mut self, trace: &mut [Line], word: Word, skill: u8, mark: i32)
        ensures row { trace.new ≡ row_put self.old trace.old word skill mark }
        ensures ledger { self.new ≡ one_used self.old trace.old }
    {
        if self.used < trace.len() {
            trace[self.used] = Line {
                tick: self.tick,
                word: word.number(),
                skill,
                mark,
            };
            self.used += 1;
        }
    }

    // The state of a skill's leaf.
    pub(crate) fn state(&self, skill: u8) -> LeafState
        ensures { result ≡ state_of self.now skill }
    {
        self.states
            .get(usize::from(skill))
            .copied()
            .unwrap_or(LeafState::Idle)
    }

    // There are no other skills than 0 to 63.
    fn set_state(&mut self, skill: u8, state: LeafState)
        ensures { self.new ≡ with_state self.old skill state }
    {
        if let 0..64 = skill {
            self.states[usize::from(skill)] = state;
        }
    }

    // The skill's leaf runs now, with this device.
    pub(crate) fn begin(&mut self, skill: u8, device: Option<u8>)
        ensures { self.new ≡ begun self.old skill device }
    {
        self.set_state(skill, LeafState::Running);
        if let Some(d @ 0..32) = device {
            self.holders[usize::from(d)] = Some(skill);
        }
    }

    // The skill's leaf is idle now.
    pub(crate) fn end(&mut self, skill: u8)
        ensures { self.new ≡ ended self.old skill }
    {
        self.set_state(skill, LeafState::Idle);
    }

    // Does a running leaf have this device?
    pub(crate) fn is_blocked(&self, device: Option<u8>) -> bool
        ensures { result ≡ blocked self.now device }
    {
        device
            .and_then(|d| *self.holders.get(usize::from(d))?)
            .is_some_and(|holder| self.state(holder) == LeafState::Running)
    }
}
