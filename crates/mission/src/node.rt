ghost use Rattle.std.specs.Prelude.{◌≡◌};
ghost use Rattle.mission.specs.Nodes.{arity, skill_of};

use entry::parts::{AbilityThreshold, CountThreshold, Weight};

// The groups that visit one child after another: `seq` and `mseq` go on after a pass, `fall` and
// `mfall` after a fail; `mseq` and `mfall` remember the child that runs.
#[derive(Clone, Copy, PartialEq, Eq, Debug)]
pub enum GroupKind {
    Seq,
    Fall,
    Mseq,
    Mfall,
}

// The decorators that visit their child again: `retry` after a fail, `repeat` after a pass.
#[derive(Clone, Copy, PartialEq, Eq, Debug)]
pub enum LoopKind {
    Retry,
    Repeat,
}

// Where the mark of a passing skill goes.
#[derive(Clone, Copy, PartialEq, Eq, Debug)]
pub enum Target {
    Nowhere,
    Count { key: u8 },
    Ability { key: u8, weight: Weight },
}

// One node of a mission, without its children, which follow it in preorder.
#[derive(Clone, Copy, PartialEq, Eq, Debug)]
pub enum Node {
    Group {
        kind: GroupKind,
        kids: u8,
    },
    Par {
        kids: u8,
        need: u8,
    },
    Not,
    Loop {
        kind: LoopKind,
        times: u16,
    },
    Skill {
        skill: u8,
        device: Option<u8>,
        target: Target,
    },
    Count {
        key: u8,
        least: CountThreshold,
    },
    Ability {
        key: u8,
        least: AbilityThreshold,
    },
}

impl Node {
    // How many children it has.
    pub fn kids(self) -> u8
        ensures { result ≡ arity self }
    {
        match self {
            Node::Group { kids, .. } | Node::Par { kids, .. } => kids,
            Node::Not | Node::Loop { .. } => 1,
            Node::Skill { .. } | Node::Count { .. } | Node::Ability { .. } => 0,
        }
    }

    // The skill that it names.
    pub fn skill(self) -> Option<u8>
        ensures { result ≡ skill_of self }
    {
        match self {
            Node::Skill { skill, .. } => Some(skill),
            _ => None,
        }
    }
}
