// A mission place, and what a mission tells of itself.
ghost use Rattle.std.specs.Prelude.{◌≡◌, ◌≤◌};
ghost use Rattle.mission.specs.Counting.{skill_count};
ghost use Rattle.mission.specs.Missions.{meaning, first_text};
ghost use Rattle.mission.specs.Texts.{text as text_of};
ghost use Rattle.mission.specs.Trees.{Means, Inverse};

use crate::mission::Mission;
use crate::node::Node;
use crate::outline::{Declared, Outline};
use entry::parts::CountThreshold;

impl Mission {
    // A mission place as it begins: one count, no abilities, and one condition.
    pub fn new() -> Mission
        ensures { text_of (meaning result) ≡ first_text }
    {
        let condition = Node::Count {
            key: 0,
            least: CountThreshold::ZERO,
        };
        let declared = Declared {
            counts: 1,
            abilities: 0,
            nodes: 1,
        };
        let outline = Outline {
            declared,
            nodes: [condition; 256],
        };
        Mission { outline }
    }

    // The declared number of counts.
    pub fn counts(&self) -> u8
        ensures { result ≡ (meaning self.now).counts }
    {
        self.outline.declared.counts
    }

    // The declared number of abilities.
    pub fn abilities(&self) -> u8
        ensures { result ≡ (meaning self.now).abilities }
    {
        self.outline.declared.abilities
    }

    // The nodes in preorder. They mean one tree, and flattening a tree and reading it back are inverse.
    pub fn nodes(&self) -> &[Node]
        ensures value { result.now ≡ (meaning self.now).nodes }
        ensures tree { Means (meaning self.now).nodes × Inverse }
    {
        self.outline.nodes()
    }

    // The number of skill leaves.
    pub fn skills(&self) -> usize
        ensures count { result ≡ skill_count (meaning self.now).nodes }
        ensures most { result ≤ 256 }
    {
        self.nodes().iter().filter(|n| n.skill().is_some()).count()
    }
}
