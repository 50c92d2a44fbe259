ghost use Rattle.std.specs.Prelude.{◌≡◌, true};
ghost use Rattle.entry.specs.Makes.{Makes};
ghost use Rattle.entry.specs.Ranges.{ability_threshold};

use crate::entry_fault::EntryFault;
use crate::parts::{AbilityThreshold, Weight, Whole};

impl AbilityThreshold {
    // The threshold `least` over `over`, or a refusal where one of them is out of range.
    pub fn new(least: i32, over: u8) -> Result<AbilityThreshold, EntryFault>
        ensures { Makes result (ability_threshold least over) (λ t. (t.least.value ≡ least) × (t.over.value ≡ over)) }
    {
        Ok(AbilityThreshold {
            least: Whole::new(least)?,
            over: Weight::new(over)?,
        })
    }

    pub fn least(self) -> i32
        ensures { result ≡ self.least.value }
    {
        self.least.value
    }

    pub fn over(self) -> u8
        ensures { result ≡ self.over.value }
    {
        self.over.value
    }
}
