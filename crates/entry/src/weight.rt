ghost use Rattle.std.specs.Prelude.{◌≡◌, ◌<◌, ◌≤◌, true};
ghost use Rattle.entry.specs.Makes.{Makes};
ghost use Rattle.entry.specs.Ranges.{weighs};

use crate::entry_fault::EntryFault;
use crate::parts::Weight;

impl Weight {
    // The weight of this number, or a refusal where it is out of range.
    // Kept `new`, as in Whole: TryFrom would be a second name for the same.
    pub fn new(value: u8) -> Result<Weight, EntryFault>
        ensures { Makes result (weighs value) (λ w. w.value ≡ value) }
    {
        if (1..=100).contains(&value) {
            Ok(Weight { value })
        } else {
            Err(EntryFault::OutOfRange)
        }
    }

    pub fn value(self) -> u8
        ensures { result ≡ self.value }
    {
        self.value
    }
}
