// What the banks hold, each with its invariants.
ghost use Rattle.std.specs.Prelude.{◌≡◌, ℕ, ◌+◌, ◌≤◌, length, pos, negsuc, ◌≤ℤ◌, slice_index};
ghost use Rattle.std.specs.List.{All};
ghost use Rattle.arrayvec.specs.ArrayVec.{array_vec_len};
ghost use Rattle.bank.specs.Ranges.{Passes, given_runs, mark_of};

use crate::banks::Bank;
use crate::kinds::Ending;
use arrayvec::ArrayVec;

// A take: 0 to 60,000 runs, and a mark of -100 to 100 where it passes.
#[derive(Clone, Copy, PartialEq, Eq, Debug)]
pub(crate) struct Take {
    pub(crate) runs: u16,
    pub(crate) ending: Ending,
    ghost few: { runs ≤ 60000 },
    ghost low: { negsuc 99 ≤ℤ mark_of ending },
    ghost high: { mark_of ending ≤ℤ pos 100 },
}

// A take that passes.
#[derive(Clone, Copy, PartialEq, Eq, Debug)]
pub struct Timing {
    pub(crate) take: Take,
    ghost passes: { Passes take.ending },
}

// A take given for a skill.
// Its default is what a vector of fixed room has where nothing was put.
#[derive(Clone, Copy, PartialEq, Eq, Debug, Default)]
pub struct GivenTake {
    pub(crate) skill: u8,
    pub(crate) take: Take,
}

// A skill's first take, and the runs given in it where the skill runs.
#[derive(Clone, Copy)]
pub(crate) struct FirstTake {
    pub(crate) take: Take,
    pub(crate) given: Option<u16>,
    ghost within: { given_runs given ≤ take.runs },
}

// The skills of a timed bank: each repeats its first take, which passes.
#[derive(Drop)]
pub struct Timed {
    pub(crate) table: ArrayVec<FirstTake, 64>,
    ghost few: { array_vec_len table ≤ 64 },
    ghost passing: { All (λ s. Passes s.take.ending) table.items },
}

// One skill of a recorded bank: its first take, and the row from which its later takes are read.
// Kept: `next` is an index. The rows are the bank's own, and no struct can lend a slice of its neighbour's field.
#[derive(Clone, Copy, Default)]
pub(crate) struct RecordedSkill {
    pub(crate) skill: u8,
    pub(crate) first: FirstTake,
    pub(crate) next: usize,
}

// The takes of a recorded bank, in the order given, and its skills.
#[derive(Drop)]
pub struct Recorded {
    pub(crate) rows: ArrayVec<GivenTake, 1024>,
    pub(crate) table: ArrayVec<RecordedSkill, 64>,
    ghost short: { array_vec_len rows ≤ 1024 },
    ghost few: { array_vec_len table ≤ 64 },
}

// A cap on the runs of each take of a bank below, with the runs given to each skill under it.
// Kept: the counters are an array, one for each number that a skill can have.
#[derive(Drop)]
pub struct Cap<B: Bank> {
    pub(crate) below: B,
    pub(crate) limit: u16,
    pub(crate) counts: [u16; 64],
    ghost few: { limit ≤ 60000 },
    ghost whole: { length counts ≡ 64 },
    ghost held: { (k : ℕ) → slice_index counts k ≤ limit },
}

// The skills of a second bank after those of a first: 64 at most.
#[derive(Drop)]
pub struct Pair<F: Bank, S: Bank> {
    pub(crate) first: F,
    pub(crate) second: S,
    ghost few: { length (F.Bank.skills first) + length (S.Bank.skills second) ≤ 64 },
}
