use crate::frame::Frame;
use rules::status::Status;

// What a visit does next.
#[derive(Clone, Copy, PartialEq, Eq, Debug)]
pub(crate) enum Turn {
    // It visits the node at this place.
    Enter(u16),
    // It looks at the next child of a node.
    Look(Frame),
    // It hands this status up.
    Answer(Status),
}
