// The children of a par that have passed and those that have failed, a bit for each.
#[derive(Clone, Copy, PartialEq, Eq, Debug)]
pub(crate) struct Results {
    pub(crate) passed: u32,
    pub(crate) failed: u32,
}

// What a node remembers from one visit to the next.
#[derive(Clone, Copy, PartialEq, Eq, Debug)]
pub(crate) enum Memory {
    Nothing,
    // Of an mseq or mfall: how many nodes of its children it is past.
    Child(u16),
    // Of a par.
    Results(Results),
    // Of a retry or repeat.
    Count(u16),
}
