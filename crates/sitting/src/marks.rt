// Marks brought into their entries.
ghost use Rattle.std.specs.Prelude.{◌≡◌};
ghost use Rattle.rules.specs.Leaves.{mark_of, is_taken};
ghost use Rattle.sitting.specs.Acts.{brought};

use board::boards::Board;
use board::entering::{Entered, enter};
use entry::parts::{Ability, Count, Mark, Weighed};
use mission::node::Target;
use rules::sitting_fault::SittingFault;

fn is_taken(entered: Entered) -> bool
    ensures { result ≡ is_taken entered }
{
    !matches!(entered, Entered::Full)
}

// Brings a mark to where it goes, and tells whether it was taken; a full entry takes none.
#[tactic(auto, using(crate::proofs::Numbers::mark_there))]
pub(crate) fn bring<C: Board<Count>, A: Board<Ability>>(
    counts: &mut C,
    abilities: &mut A,
    target: Target,
    mark: i8,
) -> Result<bool, SittingFault>
    ensures { (result, (C.Board.entries counts.new, A.Board.entries abilities.new)) ≡ brought (mark_of mark) target (C.Board.entries counts.old, A.Board.entries abilities.old) }
{
    let Ok(mark) = Mark::new(i32::from(mark)) else {
        return Ok(false);
    };
    match target {
        Target::Nowhere => Ok(true),
        Target::Count { key } => Ok(is_taken(enter(counts, key, mark)?)),
        Target::Ability { key, weight } => {
            let share = Weighed { mark, weight };
            Ok(is_taken(enter(abilities, key, share)?))
        }
    }
}
