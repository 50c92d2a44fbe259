// A key with the entry that it holds.
#[derive(Clone, Copy)]
pub struct Pair<E> {
    pub(crate) key: u8,
    pub(crate) held: E,
}
