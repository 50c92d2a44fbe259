// A place as it begins.
ghost use Rattle.std.specs.Prelude.{◌≡◌};
ghost use Rattle.rules.specs.Sittings.{shut};
ghost use Rattle.sitting.specs.Places.{place_of};

use crate::executive::Executive;
use crate::sitting::Sitting;
use mission::mission::Mission;

impl Sitting {
    // A place at which no sitting is open.
    pub(crate) fn new() -> Sitting
        ensures { place_of result ≡ shut }
    {
        Sitting {
            executive: Executive::of(&Mission::new()),
            number: 0,
            length: 0,
            is_open: false,
        }
    }
}
