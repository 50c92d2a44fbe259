ghost use Rattle.std.specs.Prelude.{◌≡◌, ◌*◌, pos, ◌*ℤ◌, neg_ℤ, ◌≤ℤ◌};
ghost use Rattle.entry.specs.Abilities.{ability_meets, ability_takes, ability_makes, gain as gain_of};
ghost use Rattle.entry.specs.Makes.{Makes};
ghost use Rattle.entry.specs.Ranges.{is_ability};

use crate::entry_fault::EntryFault;
use crate::kind::Entry;
use crate::parts::{Ability, AbilityThreshold, Weighed};

impl Ability {
    // The ability `marks` over `weight`, or a refusal where one of them is out of range.
    pub fn new(marks: i32, weight: u32) -> Result<Ability, EntryFault>
        ensures { Makes result (is_ability marks weight) (λ a. (a.marks ≡ marks) × (a.weight ≡ weight)) }
    {
        if (1..=1_000_000).contains(&weight) && marks.unsigned_abs() <= 100 * weight {
            Ok(Ability { marks, weight })
        } else {
            Err(EntryFault::OutOfRange)
        }
    }

    pub fn marks(self) -> i32
        ensures { result ≡ self.marks }
    {
        self.marks
    }

    pub fn weight(self) -> u32
        ensures { result ≡ self.weight }
    {
        self.weight
    }
}

// The product of two numbers: it fits, since it is taken in a wider type.
fn product(a: i32, b: u32) -> i64
    ensures { result ≡ a *ℤ pos b }
{
    i64::from(a) * i64::from(b)
}

// What a weighed mark adds to the marks.
fn gain(share: Weighed) -> i32
    ensures value { result ≡ gain_of share }
    ensures low { neg_ℤ (pos (100 * share.weight.value)) ≤ℤ result }
    ensures high { result ≤ℤ pos (100 * share.weight.value) }
{
    share.mark.value * i32::from(share.weight.value)
}

impl Entry for Ability {
    type Threshold = AbilityThreshold;

    type Share = Weighed;

    ghost meeting = { ability_meets };

    ghost taking = { ability_takes };

    ghost making = { ability_makes };

    fn meets(self, threshold: AbilityThreshold) -> bool {
        let over = u32::from(threshold.over.value);
        product(self.marks, over) >= product(threshold.least.value, self.weight)
    }

    fn take(self, share: Weighed) -> Option<Ability> {
        let weight = self.weight + u32::from(share.weight.value);
        Ability::new(self.marks + gain(share), weight).ok()
    }

    fn first(share: Weighed) -> Ability {
        Ability {
            marks: gain(share),
            weight: u32::from(share.weight.value),
        }
    }
}
