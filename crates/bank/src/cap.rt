// A cap over any bank.
ghost use Rattle.bank.specs.Capping.{capped_skills};
ghost use Rattle.std.proofs.Common.{arith};
ghost use Rattle.bank.specs.CapSounds.{caps_length, caps_sound};

use crate::bank_fault::BankFault;
use crate::banks::Bank;
use crate::kinds::{Ending, Reply};
use crate::parts::Cap;

impl<B: Bank> Bank for Cap<B> {
    ghost skills = { λ c. capped_skills c.limit c.counts (B.Bank.skills c.below) };

    ghost few = { λ b. omega (arith, caps_length b.limit b.counts (B.Bank.skills b.below), B.Bank.few b.below) };

    ghost sound = { λ b k. caps_sound b.limit b.few b.counts b.held (B.Bank.skills b.below) (λ i. B.Bank.sound b.below i) k };

    fn width(&self) -> u8 {
        self.below.width()
    }

    fn running(&self, k: u8) -> bool {
        self.below.running(k)
    }

    fn start(&mut self, k: u8) -> Result<(), BankFault> {
        self.below.start(k)?;
        self.counts[usize::from(k)] = 0;
        Ok(())
    }

    fn poll(&mut self, k: u8) -> Result<Reply, BankFault> {
        match self.below.poll(k)? {
            Reply::Run => {
                let given = &mut self.counts[usize::from(k)];
                if *given < self.limit {
                    *given += 1;
                    Ok(Reply::Run)
                } else {
                    self.below.halt(k)?;
                    Ok(Reply::Ended(Ending::Fail))
                }
            }
            reply => Ok(reply),
        }
    }

    fn halt(&mut self, k: u8) -> Result<(), BankFault> {
        self.below.halt(k)
    }
}
