// Entries and their parts, each with its range as its invariant.
ghost use Rattle.std.specs.Prelude.{◌*◌, ◌≤◌, pos, neg_ℤ, ◌≤ℤ◌};

// A whole number of at most `MOST` on either side of zero.
#[derive(Clone, Copy, PartialEq, Eq, Debug)]
pub struct Whole<const MOST: u32> {
    pub(crate) value: i32,
    ghost low: { neg_ℤ (pos MOST) ≤ℤ value },
    ghost high: { value ≤ℤ pos MOST },
}

// What a take earns: -100 to 100.
pub type Mark = Whole<100>;

// A count: a whole number of -1,000,000 to 1,000,000.
pub type Count = Whole<1_000_000>;

// What one mark weighs in an ability: 1 to 100.
#[derive(Clone, Copy, PartialEq, Eq, Debug)]
pub struct Weight {
    pub(crate) value: u8,
    ghost least: { 1 ≤ value },
    ghost most: { value ≤ 100 },
}

// A mark with what it weighs: what an ability takes.
#[derive(Clone, Copy, PartialEq, Eq, Debug)]
pub struct Weighed {
    pub mark: Mark,
    pub weight: Weight,
}

// An ability: marks over a weight of 1 to 1,000,000, the marks at most 100 times the weight on
// either side of zero.
#[derive(Clone, Copy, PartialEq, Eq, Debug)]
pub struct Ability {
    pub(crate) marks: i32,
    pub(crate) weight: u32,
    ghost above: { 1 ≤ weight },
    ghost within: { weight ≤ 1000000 },
    ghost low: { neg_ℤ (pos (100 * weight)) ≤ℤ marks },
    ghost high: { marks ≤ℤ pos (100 * weight) },
}

// The threshold of a count: a whole number of -1,000,000 to 1,000,000.
// Kept a type of its own, not a Count: the project wants each kind of entry to have its own kind of
// threshold.
#[derive(Clone, Copy, PartialEq, Eq, Debug)]
pub struct CountThreshold {
    pub(crate) least: Whole<1_000_000>,
}

// The threshold of an ability: P of -10,000 to 10,000 over Q of 1 to 100.
#[derive(Clone, Copy, PartialEq, Eq, Debug)]
pub struct AbilityThreshold {
    pub(crate) least: Whole<10_000>,
    pub(crate) over: Weight,
}
