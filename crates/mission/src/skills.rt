ghost use Rattle.std.specs.Prelude.{◌≡◌, false, Bool, List, length, replicate};
ghost use Rattle.mission.specs.Seen.{noted, noted_in};

use std::marker::Model;

// Which of the 64 skills were named: an answer for each.
// Kept: a table, since no call of the libraries allocates.
#[derive(Drop)]
pub(crate) struct Skills {
    named: [bool; 64],
}

impl Model for Skills {
    ghost Value = { List Bool };

    ghost view = { λ s. s.named };

    ghost invariant = { λ s. length s.named ≡ 64 };
}

impl Skills {
    pub(crate) fn none() -> Skills
        ensures { result ≡ replicate 64 false }
    {
        Skills { named: [false; 64] }
    }

    // Was the skill that a node names, if it names one, named before?
    pub(crate) fn has(&self, skill: Option<u8>) -> bool
        ensures { result ≡ noted_in self.now skill }
    {
        skill.is_some_and(|k| self.named.get(usize::from(k)) == Some(&true))
    }

    // Notes the skill that a node names, if it names one; there are no others than 0 to 63.
    pub(crate) fn note(&mut self, skill: Option<u8>)
        ensures { self.new ≡ noted self.old skill }
    {
        if let Some(k @ 0..64) = skill {
            self.named[usize::from(k)] = true;
        }
    }
}
