// What banks, pairs and caps promise, each as the contract of a small function.
// Kept: the clause `only` in the law of each call, since it is part of each theorem.
ghost use Rattle.std.specs.Prelude.{◌≡◌, ◌+◌, ◌<◌, length, MatchResult};
ghost use Rattle.bank.specs.Laws.{ChangesNoTake, OneAfterOther, OnlyAt, Shortens};
ghost use Rattle.bank.specs.Skills.{asked, leaves, start_reply, poll_reply, halt_reply, started, polled, struck};
ghost use Rattle.bank.specs.declared.bank_fault.BankFault.TheVariants.{OutOfRange};

use crate::bank_fault::BankFault;
use crate::banks::Bank;
use crate::kinds::Reply;
use crate::parts::{Cap, Pair};
use crate::refused::Refused;

// A pair of two banks means the two meanings one after the other.
pub fn pair_means_both<F: Bank, S: Bank>(first: F, second: S) -> Result<Pair<F, S>, Refused<(F, S)>>
    ensures { MatchResult result (λ p. OneAfterOther (⟦<Pair<F, S> as Bank>⟧.skills p) (F.Bank.skills first) (S.Bank.skills second)) (λ e. (64 < length (F.Bank.skills first) + length (S.Bank.skills second)) × (e.fault ≡ OutOfRange) × (e.given.0 ≡ first) × (e.given.1 ≡ second)) }
{
    Pair::new(first, second)
}

// A cap means the meaning below with each take shortened.
pub fn cap_shortens<B: Bank>(below: B, limit: u16) -> Result<Cap<B>, Refused<B>>
    ensures { MatchResult result (λ c. Shortens limit (⟦<Cap<B> as Bank>⟧.skills c) (B.Bank.skills below)) (λ e. (60000 < limit) × (e.fault ≡ OutOfRange) × (e.given ≡ below)) }
{
    Cap::new(below, limit)
}

// A cap of 60,000 changes no take.
pub fn widest_cap<B: Bank>(below: B) -> Result<Cap<B>, Refused<B>>
    ensures { MatchResult result (λ c. ChangesNoTake (⟦<Cap<B> as Bank>⟧.skills c) (B.Bank.skills below)) (λ _. ⊥) }
{
    Cap::new(below, 60_000)
}

// Kept: one function for each call, which states the call's own theorem under a name to look up.
// A start changes no other skill, and not the width.
pub fn start_only<B: Bank>(bank: &mut B, k: u8) -> Result<(), BankFault>
    ensures answer { result ≡ asked start_reply (B.Bank.skills bank.old) k }
    ensures after { B.Bank.skills bank.new ≡ leaves started result (B.Bank.skills bank.old) k }
    ensures only { OnlyAt k (B.Bank.skills bank.old) (B.Bank.skills bank.new) }
{
    bank.start(k)
}

// A poll changes no other skill, and not the width.
pub fn poll_only<B: Bank>(bank: &mut B, k: u8) -> Result<Reply, BankFault>
    ensures answer { result ≡ asked poll_reply (B.Bank.skills bank.old) k }
    ensures after { B.Bank.skills bank.new ≡ leaves polled result (B.Bank.skills bank.old) k }
    ensures only { OnlyAt k (B.Bank.skills bank.old) (B.Bank.skills bank.new) }
{
    bank.poll(k)
}

// A halt changes no other skill, and not the width.
pub fn halt_only<B: Bank>(bank: &mut B, k: u8) -> Result<(), BankFault>
    ensures answer { result ≡ asked halt_reply (B.Bank.skills bank.old) k }
    ensures after { B.Bank.skills bank.new ≡ leaves struck result (B.Bank.skills bank.old) k }
    ensures only { OnlyAt k (B.Bank.skills bank.old) (B.Bank.skills bank.new) }
{
    bank.halt(k)
}
