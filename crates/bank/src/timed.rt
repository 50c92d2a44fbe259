// The timed bank: each skill repeats one passing take.
ghost use Rattle.std.specs.Prelude.{◌≡◌, ◌<◌, ◌≤◌, map, length, MatchResult};
ghost use Rattle.bank.specs.Timing.{timed_skill, timed_skills, timing_skill};
ghost use Rattle.bank.specs.declared.bank_fault.BankFault.TheVariants.{OutOfRange};
ghost use Rattle.std.proofs.Common.{arith};
ghost use Rattle.std.proofs.lemmas.List.{length-map};
ghost use Rattle.bank.specs.Sounds.{map_sound, timed_sound};

use crate::bank_fault::BankFault;
use crate::banks::Bank;
use crate::kinds::Reply;
use crate::parts::{FirstTake, Timed, Timing};
use arrayvec::ArrayVec;

impl Timed {
    // A bank of these timings, every skill idle, or a refusal of more than 64.
    pub fn new(timings: &[Timing]) -> Result<Timed, BankFault>
        ensures { MatchResult result (λ b. (length timings.now ≤ 64) × (timed_skills b ≡ map timing_skill timings.now)) (λ e. (e ≡ OutOfRange) × (64 < length timings.now)) }
    {
        if timings.len() > 64 {
            return Err(BankFault::OutOfRange);
        }
        let mut table = ArrayVec::new();
        for timing in timings {
            table.push(FirstTake::idle(timing.take));
        }
        Ok(Timed { table })
    }
}

impl Bank for Timed {
    ghost skills = { timed_skills };

    ghost few = { λ b. omega (arith, length-map b.table.items timed_skill) };

    ghost sound = { λ b k. map_sound timed_skill timed_sound b.table.items k };

    fn width(&self) -> u8 {
        u8::try_from(self.table.len()).unwrap()
    }

    fn running(&self, k: u8) -> bool {
        self.table
            .get(usize::from(k))
            .is_some_and(FirstTake::is_running)
    }

    // Kept: three times the same look-up, since a function that lends a skill needs a contract longer than it.
    fn start(&mut self, k: u8) -> Result<(), BankFault> {
        let skill = self.table.get_mut(usize::from(k)).ok_or(BankFault::Beyond)?;
        skill.start()
    }

    fn poll(&mut self, k: u8) -> Result<Reply, BankFault> {
        let skill = self.table.get_mut(usize::from(k)).ok_or(BankFault::Beyond)?;
        skill.poll()
    }

    fn halt(&mut self, k: u8) -> Result<(), BankFault> {
        let skill = self.table.get_mut(usize::from(k)).ok_or(BankFault::Beyond)?;
        skill.halt()
    }
}
