// The recorded bank: the takes given for each skill, in order, then fails.
ghost use Rattle.std.specs.Prelude.{◌≡◌, true};
ghost use Rattle.bank.specs.Makes.{Makes};
ghost use Rattle.bank.specs.Recording.{Holds, all_below, recordable, recorded_skill, recorded_skills, rows_of};
ghost use Rattle.std.proofs.Common.{arith};
ghost use Rattle.std.proofs.lemmas.List.{length-map};
ghost use Rattle.bank.specs.RecordSounds.{recorded_sound};
ghost use Rattle.bank.specs.Sounds.{map_sound};

use crate::bank_fault::BankFault;
use crate::banks::Bank;
use crate::kinds::Reply;
use crate::parts::{GivenTake, Recorded, RecordedSkill};
use arrayvec::ArrayVec;

// Whether every take is given for a skill below the width.
fn within(width: u8, takes: &[GivenTake]) -> bool
    ensures { result ≡ all_below width takes.now }
{
    takes.iter().all(|row| row.skill < width)
}

impl Recorded {
    // A bank of these takes, every skill idle, or a refusal of a number out of range.
    pub fn new(width: u8, takes: &[GivenTake]) -> Result<Recorded, BankFault>
        ensures { Makes result (recordable width takes.now) (λ b. (recordable width takes.now ≡ true) × Holds width takes.now (recorded_skills b)) }
    {
        // The number first, so that no take is read where they are too many.
        if width > 64 || takes.len() > 1024 || !within(width, takes) {
            return Err(BankFault::OutOfRange);
        }
        let rows = ArrayVec::try_from(takes).map_err(|_| BankFault::OutOfRange)?;
        let mut table = ArrayVec::new();
        for k in 0..width {
            table.push(RecordedSkill::idle_from(takes, k, 0));
        }
        Ok(Recorded { rows, table })
    }
}

impl Bank for Recorded {
    ghost skills = { recorded_skills };

    ghost few = { λ b. omega (arith, length-map b.table.items (recorded_skill (rows_of b))) };

    ghost sound = { λ b k. map_sound (recorded_skill (rows_of b)) (recorded_sound (rows_of b)) b.table.items k };

    fn width(&self) -> u8 {
        u8::try_from(self.table.len()).unwrap()
    }

    fn running(&self, k: u8) -> bool {
        self.table
            .get(usize::from(k))
            .is_some_and(|skill| skill.first.is_running())
    }

    // Kept: three times the same look-up, since a function that lends a skill needs a contract longer than it.
    fn start(&mut self, k: u8) -> Result<(), BankFault> {
        let skill = self.table.get_mut(usize::from(k)).ok_or(BankFault::Beyond)?;
        skill.first.start()
    }

    fn poll(&mut self, k: u8) -> Result<Reply, BankFault> {
        let skill = self.table.get_mut(usize::from(k)).ok_or(BankFault::Beyond)?;
        skill.poll(&self.rows)
    }

    fn halt(&mut self, k: u8) -> Result<(), BankFault> {
        let skill = self.table.get_mut(usize::from(k)).ok_or(BankFault::Beyond)?;
        skill.halt(&self.rows)
    }
}
