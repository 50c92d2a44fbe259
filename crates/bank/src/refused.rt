// A refusal to make a bank of others.
ghost use Rattle.std.specs.Prelude.{◌≡◌};

use crate::bank_fault::BankFault;

// Why, and what was handed in, given back.
#[derive(Drop)]
pub struct Refused<T> {
    pub fault: BankFault,
    pub given: T,
}

// The fault alone, so that `?` hands it up and lets go of what was given back.
impl<T: Drop> From<Refused<T>> for BankFault {
    ghost from_gives = { λ refused fault. fault ≡ refused.fault };

    fn from(refused: Refused<T>) -> BankFault {
        refused.fault
    }
}
