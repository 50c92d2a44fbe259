// Whether the leaf of a named skill is idle or running.
#[derive(Clone, Copy, PartialEq, Eq, Debug)]
pub(crate) enum LeafState {
    Idle,
    Running,
}
