// Takes, and what calls make of a skill's first one.
ghost use Rattle.std.specs.Prelude.{◌≡◌, None};
ghost use Rattle.bank.specs.Makes.{Makes};
ghost use Rattle.bank.specs.Ranges.{in_range, mark_of};
ghost use Rattle.bank.specs.declared.kinds.Ending.TheVariants.{Fail};
ghost use Rattle.bank.specs.Skills.{start_reply, poll_reply, halt_reply, started, polled, struck, runs_now};
ghost use Rattle.bank.specs.Timing.{Called, timed_skill};

use crate::bank_fault::BankFault;
use crate::kinds::{Ending, Reply};
use crate::parts::{FirstTake, Take};

impl Take {
    // This many runs, then this ending, or a refusal where one is out of range.
    pub(crate) fn new(runs: u16, ending: Ending) -> Result<Take, BankFault>
        ensures { Makes result (in_range runs (mark_of ending)) (λ t. (t.runs ≡ runs) × (t.ending ≡ ending)) }
    {
        if runs <= 60_000 && matches!(ending, Ending::Fail | Ending::Pass(-100..=100)) {
            Ok(Take { runs, ending })
        } else {
            Err(BankFault::OutOfRange)
        }
    }
}

// No run, then a fail: the take past the last one given.
// Kept written out, as for FirstTake: a struct with an invariant of its own derives no Default.
impl Default for Take {
    ghost is_default = { λ t. (t.runs ≡ 0) × (t.ending ≡ Fail) };

    fn default() -> Take {
        Take {
            runs: 0,
            ending: Ending::Fail,
        }
    }
}

impl Default for FirstTake {
    ghost is_default = { λ f. (f.take.runs ≡ 0) × (f.take.ending ≡ Fail) × (f.given ≡ None) };

    fn default() -> FirstTake {
        FirstTake::idle(Take::default())
    }
}

impl FirstTake {
    // This take first, and the skill idle.
    pub(crate) fn idle(take: Take) -> FirstTake
        ensures first { result.take ≡ take }
        ensures idle { result.given ≡ None }
    {
        FirstTake { take, given: None }
    }

    // Whether the skill runs.
    pub(crate) fn is_running(&self) -> bool
        ensures { result ≡ runs_now (timed_skill self.now) }
    {
        self.given.is_some()
    }

    // Puts the idle skill into its first take.
    pub(crate) fn start(&mut self) -> Result<(), BankFault>
        ensures { Called start_reply started result self.old self.new }
    {
        if self.given.is_some() {
            return Err(BankFault::Running);
        }
        self.given = Some(0);
        Ok(())
    }

    // One more run, or the ending of the take, and then the skill idle at the same take.
    pub(crate) fn poll(&mut self) -> Result<Reply, BankFault>
        ensures { Called poll_reply polled result self.old self.new }
    {
        let given = self.given.ok_or(BankFault::Idle)?;
        if given < self.take.runs {
            self.given = Some(given + 1);
            return Ok(Reply::Run);
        }
        self.given = None;
        Ok(Reply::Ended(self.take.ending))
    }

    // The running skill idle at the same take.
    pub(crate) fn halt(&mut self) -> Result<(), BankFault>
        ensures { Called halt_reply struck result self.old self.new }
    {
        self.given.take().ok_or(BankFault::Idle)?;
        Ok(())
    }
}
