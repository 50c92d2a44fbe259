// The results that a par keeps.
ghost use Rattle.std.specs.Prelude.{◌≡◌};
ghost use Rattle.sitting.specs.Turns.{bit_of, has_result, kept, par_verdict};

use crate::memory::Results;
use rules::status::Status;

// The bit of a child; a par has 32 at most.
fn bit(number: u8) -> u32
    ensures { result ≡ bit_of number }
{
    match number {
        0..32 => 1 << number,
        _ => 0,
    }
}

impl Results {
    // Has this child a result?
    pub(crate) fn has(self, number: u8) -> bool
        ensures { result ≡ has_result self number }
    {
        (self.passed | self.failed) & bit(number) != 0
    }

    // With the result of this child; a child that runs has none.
    pub(crate) fn with(self, number: u8, status: Status) -> Results
        ensures { result ≡ kept self number status }
    {
        match status {
            Status::Run => self,
            Status::Pass => Results {
                passed: self.passed | bit(number),
                ..self
            },
            Status::Fail => Results {
                failed: self.failed | bit(number),
                ..self
            },
        }
    }

    // What a par with so many children makes of them, of which so many need to pass.
    pub(crate) fn verdict(self, kids: u8, need: u8) -> Status
        ensures { result ≡ par_verdict kids need self }
    {
        if self.passed.count_ones() >= u32::from(need) {
            Status::Pass
        } else if self.failed.count_ones() > u32::from(kids.saturating_sub(need)) {
            Status::Fail
        } else {
            Status::Run
        }
    }
}
