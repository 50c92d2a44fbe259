ghost use Rattle.std.specs.Prelude.{◌≡◌};
ghost use Rattle.entry.specs.Makes.{Makes};
ghost use Rattle.entry.specs.Ranges.{count_threshold};

use crate::entry_fault::EntryFault;
use crate::parts::{CountThreshold, Whole};

impl CountThreshold {
    pub const ZERO: CountThreshold = CountThreshold {
        least: Whole { value: 0 },
    };

    // The threshold of this number, or a refusal where it is out of range.
    // Kept `new`, as in Whole: TryFrom would be a second name for the same.
    pub fn new(least: i32) -> Result<CountThreshold, EntryFault>
        ensures { Makes result (count_threshold least) (λ t. t.least.value ≡ least) }
    {
        Ok(CountThreshold {
            least: Whole::new(least)?,
        })
    }

    pub fn least(self) -> i32
        ensures { result ≡ self.least.value }
    {
        self.least.value
    }
}
