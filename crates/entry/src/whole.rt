ghost use Rattle.std.specs.Prelude.{◌≡◌};
ghost use Rattle.entry.specs.Makes.{Makes};
ghost use Rattle.entry.specs.Ranges.{within};

use crate::entry_fault::EntryFault;
use crate::parts::Whole;

impl<const MOST: u32> Whole<MOST> {
    // The number, or a refusal where it is out of range.
    // Kept `new`, and no TryFrom: a second name for the same, with an error type to declare.
    pub fn new(value: i32) -> Result<Whole<MOST>, EntryFault>
        ensures { Makes result (within MOST value) (λ w. w.value ≡ value) }
    {
        if value.unsigned_abs() <= MOST {
            Ok(Whole { value })
        } else {
            Err(EntryFault::OutOfRange)
        }
    }

    pub fn value(self) -> i32
        ensures { result ≡ self.entry.value }
    {
        self.value
    }
}
