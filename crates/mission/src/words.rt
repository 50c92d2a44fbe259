// The words that the kinds of groups and loops have in a node line.
// Kept beside the match that reads them (`line::node_kind`): to search the kinds by their words is no plainer.
ghost use Rattle.std.specs.Prelude.{◌≡◌};
ghost use Rattle.mission.specs.Lines.{group_word, loop_word};

use crate::node::{GroupKind, LoopKind};

impl GroupKind {
    pub(crate) fn word(self) -> &'static str
        ensures { result.now ≡ group_word self }
    {
        match self {
            GroupKind::Seq => "seq",
            GroupKind::Fall => "fall",
            GroupKind::Mseq => "mseq",
            GroupKind::Mfall => "mfall",
        }
    }
}

impl LoopKind {
    pub(crate) fn word(self) -> &'static str
        ensures { result.now ≡ loop_word self }
    {
        match self {
            LoopKind::Retry => "retry",
            LoopKind::Repeat => "repeat",
        }
    }
}
