// Passing takes for timed skills.
ghost use Rattle.std.specs.Prelude.{◌≡◌};
ghost use Rattle.bank.specs.Makes.{Makes};
ghost use Rattle.bank.specs.Ranges.{in_range};
ghost use Rattle.bank.specs.declared.kinds.Ending.TheVariants.{Pass};

use crate::bank_fault::BankFault;
use crate::kinds::Ending;
use crate::parts::{Take, Timing};

impl Timing {
    // This many runs, then a pass with this mark, or a refusal where one is out of range.
    pub fn new(runs: u16, mark: i8) -> Result<Timing, BankFault>
        ensures { Makes result (in_range runs mark) (λ t. (t.take.runs ≡ runs) × (t.take.ending ≡ Pass mark)) }
    {
        Ok(Timing {
            take: Take::new(runs, Ending::Pass(mark))?,
        })
    }
}
