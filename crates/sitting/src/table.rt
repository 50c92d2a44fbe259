// What an executive knows of the node at a place.
ghost use Rattle.std.specs.Prelude.{◌≡◌};
ghost use Rattle.mission.specs.Missions.{meaning};
ghost use Rattle.mission.specs.Places.{node_at};
ghost use Rattle.sitting.specs.Tables.{end_at, memory_at, with_memory, ahead_of, results_of, count_of, beyond};

use crate::executive::Executive;
use crate::memory::{Memory, Results};
use mission::node::Node;

// The place so far behind another.
pub(crate) fn beyond(at: u16, by: u16) -> u16
    ensures { result ≡ beyond at by }
{
    at.saturating_add(by)
}

impl Executive {
    pub(crate) fn node(&self, at: u16) -> Node
        ensures { result ≡ node_at (meaning self.now.mission).nodes at }
    {
        self.mission
            .nodes()
            .get(usize::from(at))
            .copied()
            .unwrap_or(Node::Not)
    }

    // The place behind the node and all below it.
    pub(crate) fn end(&self, at: u16) -> u16
        ensures { result ≡ end_at self.now at }
    {
        self.ends.get(usize::from(at)).copied().unwrap_or(0)
    }

    pub(crate) fn memory(&self, at: u16) -> Memory
        ensures { result ≡ memory_at self.now at }
    {
        self.memories
            .get(usize::from(at))
            .copied()
            .unwrap_or(Memory::Nothing)
    }

    pub(crate) fn remember(&mut self, at: u16, memory: Memory)
        ensures { self.new ≡ with_memory self.old at memory }
    {
        if let 0..256 = at {
            self.memories[usize::from(at)] = memory;
        }
    }
}

impl Memory {
    // How many nodes of its children a group goes past before the one that it remembers.
    pub(crate) fn ahead(self) -> u16
        ensures { result ≡ ahead_of self }
    {
        match self {
            Memory::Child(ahead) => ahead,
            _ => 0,
        }
    }

    // The results that a par keeps.
    pub(crate) fn results(self) -> Results
        ensures { result ≡ results_of self }
    {
        match self {
            Memory::Results(results) => results,
            _ => Results {
                passed: 0,
                failed: 0,
            },
        }
    }

    // What a loop has counted.
    pub(crate) fn count(self) -> u16
        ensures { result ≡ count_of self }
    {
        match self {
            Memory::Count(count) => count,
            _ => 0,
        }
    }
}
