// A node whose child is being visited: the two by their places among the nodes in preorder, and the
// child by its number among its siblings.
#[derive(Clone, Copy, PartialEq, Eq, Debug, Default)]
pub(crate) struct Frame {
    pub(crate) node: u16,
    pub(crate) child: u16,
    pub(crate) number: u8,
}
