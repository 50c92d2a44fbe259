use crate::node::{GroupKind, LoopKind};

// What the first field of a node line says.
// Kept beside the enums below: the definitions read a line's kind before its other fields.
#[derive(Clone, Copy)]
pub(crate) enum NodeKind {
    Group(GroupKind),
    Par,
    Not,
    Loop(LoopKind),
    Skill,
    Count,
    Ability,
}

// The last fields of a skill line, with their numbers as they are written.
// Kept beside `Target`: there each number has the type in which a mission keeps it, so one enum would
// need a type parameter for each.
#[derive(Clone, Copy)]
pub(crate) enum RawTarget {
    Nowhere,
    Count { key: i32 },
    Ability { key: i32, weight: i32 },
}

// A node line of its form, with its numbers as they are written, in or out of range. Kept beside
// `Node` for the same reason.
#[derive(Clone, Copy)]
pub(crate) enum RawNode {
    Group {
        kind: GroupKind,
        kids: i32,
    },
    Par {
        kids: i32,
        need: i32,
    },
    Not,
    Loop {
        kind: LoopKind,
        times: i32,
    },
    Skill {
        skill: i32,
        device: Option<i32>,
        target: RawTarget,
    },
    Count {
        key: i32,
        least: i32,
    },
    Ability {
        key: i32,
        least: i32,
        over: i32,
    },
}
