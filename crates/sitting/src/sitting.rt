// A place for a sitting.
ghost use Rattle.sitting.specs.Places.{Seat, Keeps};

use crate::executive::Executive;
use std::marker::Model;

// Whether a sitting is open at the place, its number, the length of the trace that it was opened with,
// and the executive that runs its mission.
#[derive(Drop)]
pub(crate) struct Sitting {
    pub(crate) executive: Executive,
    pub(crate) number: u16,
    pub(crate) length: usize,
    pub(crate) is_open: bool,
}

// What it means by the rules is `place_of`.
impl Model for Sitting {
    ghost Value = { Seat };

    ghost view = { λ s. record { is_open = s.is_open; executive = s.executive; number = s.number; length = s.length } };

    ghost invariant = { λ s. Keeps (record { is_open = s.is_open; executive = s.executive; number = s.number; length = s.length }) };
}
