// Takes given for the skills of a recorded bank.
ghost use Rattle.std.specs.Prelude.{◌≡◌};
ghost use Rattle.bank.specs.Makes.{Makes};
ghost use Rattle.bank.specs.Ranges.{in_range, mark_of};

use crate::bank_fault::BankFault;
use crate::kinds::Ending;
use crate::parts::{GivenTake, Take};

impl GivenTake {
    // This many runs for the skill, then this ending, or a refusal where one is out of range.
    pub fn new(skill: u8, runs: u16, ending: Ending) -> Result<GivenTake, BankFault>
        ensures { Makes result (in_range runs (mark_of ending)) (λ t. (t.skill ≡ skill) × (t.take.runs ≡ runs) × (t.take.ending ≡ ending)) }
    {
        Ok(GivenTake {
            skill,
            take: Take::new(runs, ending)?,
        })
    }
}
