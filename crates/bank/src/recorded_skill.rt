// One skill of a recorded bank, over the bank's rows.
ghost use Rattle.std.specs.Prelude.{◌≡◌, drop};
ghost use Rattle.bank.specs.Recording.{given_skill, recorded_skill};
ghost use Rattle.bank.specs.Skills.{poll_reply, halt_reply, polled, struck, left_by};

use crate::bank_fault::BankFault;
use crate::kinds::Reply;
use crate::parts::{FirstTake, GivenTake, RecordedSkill};

impl RecordedSkill {
    // The skill idle, with the takes given for it from this row on.
    pub(crate) fn idle_from(rows: &[GivenTake], skill: u8, from: usize) -> RecordedSkill
        ensures { recorded_skill rows.now result ≡ given_skill (drop from rows.now) skill }
    {
        let found = rows
            .iter()
            .enumerate()
            .skip(from)
            .find(|(_, row)| row.skill == skill);
        match found {
            Some((at, row)) => RecordedSkill {
                skill,
                first: FirstTake::idle(row.take),
                next: at + 1,
            },
            None => RecordedSkill {
                skill,
                first: FirstTake::default(),
                next: rows.len(),
            },
        }
    }

    // One more run, or the ending of the take, which is then struck off.
    pub(crate) fn poll(&mut self, rows: &[GivenTake]) -> Result<Reply, BankFault>
        ensures answer { result ≡ poll_reply (recorded_skill rows.now self.old) }
        ensures after { recorded_skill rows.now self.new ≡ left_by polled result (recorded_skill rows.now self.old) }
    {
        let reply = self.first.poll()?;
        if let Reply::Ended(_) = reply {
            *self = RecordedSkill::idle_from(rows, self.skill, self.next);
        }
        Ok(reply)
    }

    // Strikes off the take of the running skill.
    pub(crate) fn halt(&mut self, rows: &[GivenTake]) -> Result<(), BankFault>
        ensures answer { result ≡ halt_reply (recorded_skill rows.now self.old) }
        ensures after { recorded_skill rows.now self.new ≡ left_by struck result (recorded_skill rows.now self.old) }
    {
        self.first.halt()?;
        *self = RecordedSkill::idle_from(rows, self.skill, self.next);
        Ok(())
    }
}
