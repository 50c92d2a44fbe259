// Making a cap: whatever runs below is halted.
ghost use Rattle.std.specs.Prelude.{◌≡◌, ◌<◌, ◌≤◌, map, MatchResult};
ghost use Rattle.bank.specs.Capping.{halted, shortened};
ghost use Rattle.bank.specs.declared.bank_fault.BankFault.TheVariants.{OutOfRange};

use crate::bank_fault::BankFault;
use crate::banks::Bank;
use crate::parts::Cap;
use crate::refused::Refused;

// Halts every skill that runs.
fn halt_each<B: Bank>(below: &mut B)
    ensures { B.Bank.skills below.new ≡ map halted (B.Bank.skills below.old) }
{
    for k in 0..below.width() {
        // An idle skill refuses, and stays as it is.
        let _ = below.halt(k);
    }
}

impl<B: Bank> Cap<B> {
    // A cap of this many runs, every skill idle, or a refusal of a limit above 60,000.
    pub fn new(mut below: B, limit: u16) -> Result<Cap<B>, Refused<B>>
        ensures { MatchResult result (λ c. (limit ≤ 60000) × (⟦<Cap<B> as Bank>⟧.skills c ≡ map (shortened limit) (map halted (B.Bank.skills below)))) (λ e. (60000 < limit) × (e.fault ≡ OutOfRange) × (e.given ≡ below)) }
    {
        if limit > 60_000 {
            return Err(Refused {
                fault: BankFault::OutOfRange,
                given: below,
            });
        }
        halt_each(&mut below);
        Ok(Cap {
            below,
            limit,
            counts: [0; 64],
        })
    }
}
