ghost use Rattle.std.specs.Prelude.{◌≡◌, ◌≤◌, true, length, take};
ghost use Rattle.mission.specs.Lines.{all_ranged};

use crate::node::Node;

// The declared numbers of a mission, each in its range.
#[derive(Clone, Copy)]
pub(crate) struct Declared {
    pub(crate) counts: u8,
    pub(crate) abilities: u8,
    pub(crate) nodes: u16,
    ghost few_counts: { counts ≤ 32 },
    ghost few_abilities: { abilities ≤ 32 },
    ghost some: { 1 ≤ nodes },
    ghost fits: { nodes ≤ 256 },
}

// The declared numbers and the nodes of a mission in preorder, every number in its range. Whether the
// nodes make a tree is not judged yet.
// Kept: a table, with its length a declared number. No call of the libraries allocates, and an outline is
// copied whole, which a vector of fixed room is not.
#[derive(Clone, Copy)]
pub struct Outline {
    pub(crate) declared: Declared,
    pub(crate) nodes: [Node; 256],
    ghost table: { length nodes ≡ 256 },
    ghost in_range: { all_ranged (take declared.nodes nodes) ≡ true },
}
