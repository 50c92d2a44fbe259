ghost use Rattle.std.specs.Prelude.{◌≡◌};
ghost use Rattle.booth.specs.Verdicts.{Judged};
ghost use Rattle.booth.specs.declared.verdict.Unjudged.TheVariants.{Refused as IsRefused, OutOfMemory as IsOutOfMemory};

use mission::mission::Mission;
use mission::tree_fault::TreeFault;
use std::alloc::{AllocError, Global};

// What is said of a mission text that is accepted: its mission's text, with the numbers of its nodes
// and skill leaves.
#[derive(Drop)]
pub struct Accepted {
    pub text: Vec<u8>,
    pub nodes: usize,
    pub skills: usize,
}

// Why a text is not accepted: its first fault, or no memory to judge it in.
#[derive(Debug, Drop)]
pub enum Unjudged {
    Refused(TreeFault),
    OutOfMemory(AllocError),
}

impl From<TreeFault> for Unjudged {
    ghost from_gives = { λ fault r. r ≡ IsRefused fault };

    fn from(fault: TreeFault) -> Unjudged {
        Unjudged::Refused(fault)
    }
}

impl From<AllocError> for Unjudged {
    ghost from_gives = { λ error r. r ≡ IsOutOfMemory error };

    fn from(error: AllocError) -> Unjudged {
        Unjudged::OutOfMemory(error)
    }
}

// Judges a mission text.
pub fn judge(heap: Global, text: &[u8]) -> Result<Accepted, Unjudged>
    ensures { Judged text.now result }
{
    let mut mission = Mission::new();
    mission.read(text)?;
    let mut page = vec![in heap; 0u8; text.len()]?;
    let len = mission.write(page.as_mut_slice()).unwrap();
    page.truncate(len);
    Ok(Accepted {
        text: page,
        nodes: mission.nodes().len(),
        skills: mission.skills(),
    })
}
