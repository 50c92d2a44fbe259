// An executive made for a mission.
ghost use Rattle.std.specs.Prelude.{◌≡◌, ◌≤◌, length, take, replicate, slice_index_or, Some};
ghost use Rattle.mission.specs.Trees.{Trees, grown};
ghost use Rattle.mission.specs.Missions.{meaning};
ghost use Rattle.rules.specs.Missions.{plan};
ghost use Rattle.sitting.specs.Desks.{fresh_ledger};
ghost use Rattle.sitting.specs.Ends.{past, ends, all_ends};
ghost use Rattle.sitting.specs.declared.memory.Memory.TheVariants.{Nothing};

use crate::executive::Executive;
use crate::leaf_state::LeafState;
use crate::ledger::Ledger;
use crate::memory::Memory;
use mission::mission::Mission;
use mission::node::Node;

// The place past so many trees that begin at a place, by the ends of the places from there on.
fn past(ends: &[u16; 256], kids: u8, from: u16) -> u16
    ensures { result ≡ past kids (λ i. slice_index_or ends.now i 0) from }
{
    let mut at = from;
    for _ in 0..kids {
        at = ends.get(usize::from(at)).copied().unwrap_or(0);
    }
    at
}

// The place behind each node and all below it. A node ends where its last child does, so the last node
// comes first.
pub(crate) fn ends_of(nodes: &[Node]) -> [u16; 256]
    requires { length nodes.now ≤ 256 }
    ensures { (ts : Trees) → grown nodes.now ≡ Some ts → take (length nodes.now) result ≡ all_ends ts 0 }
{
    let mut ends = [0; 256];
    for at in (0..nodes.len()).rev() {
        ends[at] = past(&ends, nodes[at].kids(), at as u16 + 1);
    }
    ends
}

impl Executive {
    // The executive of a mission as it begins: nothing is remembered, no leaf runs, and no line is used.
    pub(crate) fn of(mission: &Mission) -> Executive
        ensures mission { result.mission ≡ mission.now }
        ensures ends { take (length (meaning mission.now).nodes) result.ends ≡ ends (plan mission.now).tree 0 }
        ensures memories { result.memories ≡ replicate 256 Nothing }
        ensures ledger { result.ledger ≡ fresh_ledger }
    {
        Executive {
            mission: *mission,
            ends: ends_of(mission.nodes()),
            memories: [Memory::Nothing; 256],
            ledger: Ledger {
                tick: 0,
                used: 0,
                states: [LeafState::Idle; 64],
                holders: [None; 32],
            },
        }
    }
}
