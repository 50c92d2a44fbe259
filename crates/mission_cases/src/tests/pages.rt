// What writing leaves in a page.
use crate::tests::case::{FRESH, Trial, on_trial};
use fault::layer::Layer;
use fault::refusal::Refusal;
use mission::mission::Mission;
use std::alloc::{AllocError, Global};
use std::process::Abort;
use std::test::Fail;

// How much longer than the text the long page is.
const MORE: usize = 300;

// A page of this length that begins with a text. The bytes past the text are those of a page that is
// not written yet: they stand in no text, and neighbours differ.
fn page(heap: Global, text: &[u8], len: usize) -> Result<Vec<u8>, AllocError> {
    let mut page = Vec::from_slice(heap, text)?;
    page.extend((128..=254).cycle().take(len).skip(text.len()))?;
    Ok(page)
}

impl<R: Abort + AllocGlobal> Trial<'_, R> {
    // The mission's text is this one: on a page of its length, on a longer one, and on one that is a
    // byte short.
    pub(crate) fn check_writes(&self, mission: &Mission, text: &[u8]) -> Result<(), Fail> {
        self.check_fits(mission, text, text.len())?;
        self.check_fits(mission, text, text.len().saturating_add(MORE))?;
        self.check_short(mission, text.len().saturating_sub(1))
    }

    // On a page of this length the text stands first, and all past it is as found.
    fn check_fits(&self, mission: &Mission, text: &[u8], len: usize) -> Result<(), Fail> {
        let rt = self.rt;
        let told = self.told;
        let mut lent = page(rt.alloc(), b"", len)?;
        let written = mission.write(lent.as_mut_slice()).map_err(|fault| Fail::new(format_args!(
            "error: {fault:?}: {told}"
        )))?;
        assert_eq!(rt; written, text.len(), "{told}");
        assert_eq!(rt; lent, page(rt.alloc(), text, len)?, "{told}");
        Ok(())
    }

    // A page of this length is too short, and the whole of it is as found.
    fn check_short(&self, mission: &Mission, len: usize) -> Result<(), Fail> {
        let rt = self.rt;
        let told = self.told;
        let mut lent = page(rt.alloc(), b"", len)?;
        let fault = mission
            .write(lent.as_mut_slice())
            .err()
            .ok_or_else(|| Fail::new(format_args!("the text is written: {told}")))?;
        assert_eq!(rt; (fault.number(), fault.line()), (21, 0), "{told}");
        assert_eq!(rt; fault.layer(), Layer::Text, "{told}");
        assert_eq!(rt; lent, page(rt.alloc(), b"", len)?, "{told}");
        Ok(())
    }
}

#[test]
fn a_fresh_place_writes_one_condition(rt: HostRuntime) -> Result<(), Fail> {
    let place = Mission::new();
    assert_eq!(rt; (place.counts(), place.abilities()), (1, 0));
    assert_eq!(rt; (place.nodes().len(), place.skills()), (1, 0));
    let trial = on_trial(&rt, "a fresh place");
    trial.check_writes(&place, FRESH)?;
    for len in 0..FRESH.len() {
        trial.check_short(&place, len)?;
    }
    Ok(())
}
