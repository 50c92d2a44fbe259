// Which status a group goes on after and a loop counts, and what a status becomes under `not`.
ghost use Rattle.std.specs.Prelude.{◌≡◌};
ghost use Rattle.rules.specs.Live.{goes_on, remembers as kind_remembers, counts_on};
ghost use Rattle.rules.specs.Statuses.{exchanged, verdict_of};
ghost use Rattle.rules.specs.Visiting.{moved, moves_on};

use mission::node::{GroupKind, LoopKind};
use rules::status::Status;

// The status of a child after which a group goes on to the next.
pub(crate) fn onward(kind: GroupKind) -> Status
    ensures { result ≡ moved (goes_on kind) }
{
    match kind {
        GroupKind::Seq | GroupKind::Mseq => Status::Pass,
        GroupKind::Fall | GroupKind::Mfall => Status::Fail,
    }
}

pub(crate) fn goes_on_after(kind: GroupKind, status: Status) -> bool
    ensures { result ≡ moves_on (goes_on kind) status }
{
    status == onward(kind)
}

pub(crate) fn remembers(kind: GroupKind) -> bool
    ensures { result ≡ kind_remembers kind }
{
    matches!(kind, GroupKind::Mseq | GroupKind::Mfall)
}

// The status of its child that a loop counts.
pub(crate) fn counted(kind: LoopKind) -> Status
    ensures { result ≡ moved (counts_on kind) }
{
    match kind {
        LoopKind::Retry => Status::Fail,
        LoopKind::Repeat => Status::Pass,
    }
}

pub(crate) fn counts_after(kind: LoopKind, status: Status) -> bool
    ensures { result ≡ moves_on (counts_on kind) status }
{
    status == counted(kind)
}

// Pass and fail exchanged.
pub(crate) fn exchanged(status: Status) -> Status
    ensures { result ≡ exchanged status }
{
    match status {
        Status::Run => Status::Run,
        Status::Pass => Status::Fail,
        Status::Fail => Status::Pass,
    }
}

// A condition passes or fails.
pub(crate) fn verdict(meets: bool) -> Status
    ensures { result ≡ verdict_of meets }
{
    if meets { Status::Pass } else { Status::Fail }
}
