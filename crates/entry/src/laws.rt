// What the rules of entries promise, each as the contract of a small function.
// Kept apart, one for each kind of entry: each states its kind's own arithmetic under a name to look up.
ghost use Rattle.std.specs.Prelude.{◌≡◌, true, false, Ok};
ghost use Rattle.entry.specs.Laws.{CountAdds, AbilityAdds};

use crate::entry_fault::EntryFault;
use crate::kind::Entry;
use crate::parts::{Ability, AbilityThreshold, Count, Mark, Weighed};

// A count that is not full for a mark grows by exactly it.
pub fn count_adds(count: Count, mark: Mark) -> Option<Count>
    ensures { CountAdds count mark result }
{
    count.take(mark)
}

// An ability that is not full for a weighed mark grows by exactly it.
pub fn ability_adds(ability: Ability, share: Weighed) -> Option<Ability>
    ensures { AbilityAdds ability share result }
{
    ability.take(share)
}

// -6 over 2 meets -3 over 1 and not -1 over 2: the sign stays, and the products stand on their
// sides.
pub fn below_zero() -> Result<(bool, bool), EntryFault>
    ensures { result ≡ Ok (true, false) }
{
    let ability = Ability::new(-6, 2)?;
    let met = ability.meets(AbilityThreshold::new(-3, 1)?);
    let missed = ability.meets(AbilityThreshold::new(-1, 2)?);
    Ok((met, missed))
}
