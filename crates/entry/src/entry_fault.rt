// The one refusal of making a part of an entry from plain numbers.
ghost use Rattle.entry.specs.Faults.{number as number_of, layer as layer_of, line as line_of};

use fault::layer::Layer;
use fault::refusal::Refusal;

#[derive(Clone, Copy, PartialEq, Eq, Debug)]
pub enum EntryFault {
    OutOfRange = 2,
}

impl Refusal for EntryFault {
    ghost numbered = { number_of };

    ghost layered = { layer_of };

    ghost lined = { line_of };

    // Kept: its number is its discriminant, so the cast needs no second table.
    fn number(&self) -> u8 {
        *self as u8
    }

    fn layer(&self) -> Layer {
        Layer::Board
    }

    fn line(&self) -> u32 {
        0
    }
}
