use crate::ledger::Ledger;
use crate::memory::Memory;
use mission::mission::Mission;

// What runs a mission: its own copy of it, where the nodes below each node end, what each node
// remembers, and its ledger.
#[derive(Drop)]
pub(crate) struct Executive {
    pub(crate) mission: Mission,
    pub(crate) ends: [u16; 256],
    pub(crate) memories: [Memory; 256],
    pub(crate) ledger: Ledger,
}
