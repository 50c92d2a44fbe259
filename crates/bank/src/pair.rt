// A pair of banks: a skill at or beyond the first's width is the second's.
ghost use Rattle.std.specs.Prelude.{◌≡◌, ◌+◌, ◌<◌, ◌≤◌, ◌++◌, length, MatchResult};
ghost use Rattle.bank.specs.Pairing.{paired, in_second};
ghost use Rattle.bank.specs.declared.bank_fault.BankFault.TheVariants.{OutOfRange};
ghost use Rattle.std.proofs.Common.{arith, length-append};
ghost use Rattle.bank.specs.Pairs.{paired_sound};

use crate::bank_fault::BankFault;
use crate::banks::Bank;
use crate::kinds::Reply;
use crate::parts::Pair;
use crate::refused::Refused;

impl<F: Bank, S: Bank> Pair<F, S> {
    // The second bank after the first, or a refusal of more than 64 skills.
    pub fn new(first: F, second: S) -> Result<Pair<F, S>, Refused<(F, S)>>
        ensures { MatchResult result (λ p. (length (F.Bank.skills first) + length (S.Bank.skills second) ≤ 64) × (⟦<Pair<F, S> as Bank>⟧.skills p ≡ F.Bank.skills first ++ S.Bank.skills second)) (λ e. (64 < length (F.Bank.skills first) + length (S.Bank.skills second)) × (e.fault ≡ OutOfRange) × (e.given.0 ≡ first) × (e.given.1 ≡ second)) }
    {
        if first.width() + second.width() > 64 {
            return Err(Refused {
                fault: BankFault::OutOfRange,
                given: (first, second),
            });
        }
        Ok(Pair { first, second })
    }

    // The number of skill k in the second bank, or none where the first has it.
    fn in_second(&self, k: u8) -> Option<u8>
        ensures { result ≡ in_second (length (F.Bank.skills self.now.first)) k }
    {
        k.checked_sub(self.first.width())
    }
}

// Kept: four matches of one shape, since each sends another call to the one bank or the other.
impl<F: Bank, S: Bank> Bank for Pair<F, S> {
    ghost skills = { λ p. paired (F.Bank.skills p.first) (S.Bank.skills p.second) };

    ghost few = { λ p. omega (arith, length-append (F.Bank.skills p.first) (S.Bank.skills p.second), p.few) };

    ghost sound = { λ p k.
        paired_sound (F.Bank.skills p.first) (S.Bank.skills p.second) k
        (λ i. F.Bank.sound p.first i) (λ i. S.Bank.sound p.second i) };

    fn width(&self) -> u8 {
        self.first.width() + self.second.width()
    }

    fn running(&self, k: u8) -> bool {
        match self.in_second(k) {
            None => self.first.running(k),
            Some(at) => self.second.running(at),
        }
    }

    fn start(&mut self, k: u8) -> Result<(), BankFault> {
        match self.in_second(k) {
            None => self.first.start(k),
            Some(at) => self.second.start(at),
        }
    }

    fn poll(&mut self, k: u8) -> Result<Reply, BankFault> {
        match self.in_second(k) {
            None => self.first.poll(k),
            Some(at) => self.second.poll(at),
        }
    }

    fn halt(&mut self, k: u8) -> Result<(), BankFault> {
        match self.in_second(k) {
            None => self.first.halt(k),
            Some(at) => self.second.halt(at),
        }
    }
}
