// The halting walk.
ghost use Rattle.std.specs.Prelude.{◌≡◌};
ghost use Rattle.sitting.specs.Halting.{desk, halt_at, halt_range};
ghost use Rattle.sitting.specs.Ruled.{HaltsByTheRules, agreeing, holding};

use crate::executive::Executive;
use crate::memory::Memory;
use bank::banks::Bank;
use mission::node::Node;
use rules::line::Line;
use rules::sitting_fault::SittingFault;

impl Executive {
    // Clears what the node at a place remembers, and halts its skill if that runs.
    fn halt_at<B: Bank>(
        &mut self,
        bank: &mut B,
        trace: &mut [Line],
        at: u16,
    ) -> Result<(), SittingFault>
        ensures { (result, desk self.new (B.Bank.skills bank.new) trace.new) ≡ halt_at at (desk self.old (B.Bank.skills bank.old) trace.old) }
    {
        self.remember(at, Memory::Nothing);
        match self.node(at) {
            Node::Skill { skill, .. } => self.ledger.stop_skill(bank, trace, skill),
            _ => Ok(()),
        }
    }

    // Clears and halts all from one place to another, in order.
    pub(crate) fn halt_range<B: Bank>(
        &mut self,
        bank: &mut B,
        trace: &mut [Line],
        from: u16,
        to: u16,
    ) -> Result<(), SittingFault>
        ensures { (result, desk self.new (B.Bank.skills bank.new) trace.new) ≡ halt_range from to (desk self.old (B.Bank.skills bank.old) trace.old) }
    {
        for at in from..to {
            self.halt_at(bank, trace, at)?;
        }
        Ok(())
    }

    // Halts the root: all that it remembers is cleared, and each running skill is halted in tree order.
    pub(crate) fn halt_root<B: Bank>(
        &mut self,
        bank: &mut B,
        trace: &mut [Line],
    ) -> Result<(), SittingFault>
        ensures stops { HaltsByTheRules agreeing self.old (B.Bank.skills bank.old) trace.old result self.new (B.Bank.skills bank.new) trace.new }
        ensures holds { HaltsByTheRules holding self.old (B.Bank.skills bank.old) trace.old result self.new (B.Bank.skills bank.new) trace.new }
    {
        self.halt_range(bank, trace, 0, self.end(0))
    }
}
