use crate::leaf_state::LeafState;

// What an executive keeps of its lines and its leaves: the tick that lines carry, how many lines are
// used, the state of each skill's leaf, and the skill that was started last with each device.
#[derive(Drop)]
pub(crate) struct Ledger {
    pub(crate) tick: u32,
    pub(crate) used: usize,
    pub(crate) states: [LeafState; 64],
    pub(crate) holders: [Option<u8>; 32],
}
