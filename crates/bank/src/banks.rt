// What every bank of skills keeps to.
ghost use Rattle.std.specs.Prelude.{◌≡◌, ℕ, ◌≤◌, List, length, slice_index_or};
ghost use Rattle.bank.specs.Skills.{Skill, Sound, no_skill, runs_now, start_reply, poll_reply, halt_reply, started, polled, struck, asked, leaves};

use crate::bank_fault::BankFault;
use crate::kinds::Reply;

// Skills numbered from 0: `skills` is what a bank means.
// Kept two clauses a call: most proofs cite one of them.
pub trait Bank {
    ghost skills: { Self → List Skill };

    // How many skills there are.
    fn width(&self) -> u8
        ensures { result ≡ length (skills self.now) };

    // Whether the skill runs: no at or beyond the width.
    fn running(&self, k: u8) -> bool
        ensures { result ≡ runs_now (slice_index_or (skills self.now) k no_skill) };

    // Puts an idle skill into its first take.
    fn start(&mut self, k: u8) -> Result<(), BankFault>
        ensures answer { result ≡ asked start_reply (skills self.old) k }
        ensures after { skills self.new ≡ leaves started result (skills self.old) k };

    // One more run, or the ending of the take, which is then struck off.
    fn poll(&mut self, k: u8) -> Result<Reply, BankFault>
        ensures answer { result ≡ asked poll_reply (skills self.old) k }
        ensures after { skills self.new ≡ leaves polled result (skills self.old) k };

    // Strikes off the take of a running skill.
    fn halt(&mut self, k: u8) -> Result<(), BankFault>
        ensures answer { result ≡ asked halt_reply (skills self.old) k }
        ensures after { skills self.new ≡ leaves struck result (skills self.old) k };

    ghost few: { (b : Self) → length (skills b) ≤ 64 };

    ghost sound: { (b : Self) (k : ℕ) → Sound (slice_index_or (skills b) k no_skill) };
}
