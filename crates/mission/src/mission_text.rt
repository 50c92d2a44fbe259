// Missions read from texts and written to them.
ghost use Rattle.std.specs.Prelude.{◌≡◌, MatchResult};
ghost use Rattle.mission.specs.Missions.{meaning, Accepted, Put, TooLong, OwnText};
ghost use Rattle.mission.specs.Texts.{text as text_of, FirstFault};
ghost use Rattle.mission.specs.declared.mission.Mission.{Mission as AMission};

use crate::mission::Mission;
use crate::page_fault::PageFault;
use crate::reading::read_outline;
use crate::tree::judge;
use crate::tree_fault::TreeFault;
use crate::writing::lay;

impl Mission {
    // Replaces the mission by that of the text, or refuses with the text's first fault and leaves the
    // mission as it was.
    pub fn read(&mut self, text: &[u8]) -> Result<(), TreeFault>
        ensures outcome { MatchResult result (λ _. Accepted text.now self.new) (λ f. FirstFault text.now f × (self.new ≡ self.old)) }
        ensures back { (m : AMission) → text.now ≡ text_of (meaning m) → MatchResult result (λ _. meaning self.new ≡ meaning m) (λ _. ⊥) }
    {
        let outline = read_outline(text)?;
        judge(&outline)?;
        *self = Mission { outline };
        Ok(())
    }

    // Puts the mission's text into the page and answers its length; refuses where the page is too short,
    // and leaves it as it was. All past the text stays as found.
    pub fn write(&self, page: &mut [u8]) -> Result<usize, PageFault>
        ensures outcome { MatchResult result (λ n. Put (text_of (meaning self.now)) page.old page.new n) (λ _. TooLong (text_of (meaning self.now)) page.old × (page.new ≡ page.old)) }
        ensures back { OwnText self.now }
    {
        // The first pass only counts, so that a page that is too short stays as it was.
        let len = lay(&self.outline, &mut []);
        if len > page.len() {
            return Err(PageFault);
        }
        Ok(lay(&self.outline, page))
    }
}
