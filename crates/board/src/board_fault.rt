// Why a board refuses: its size at making, or a key at or beyond its size.
ghost use Rattle.board.specs.Faults.{number as number_of, layer as layer_of, line as line_of};

use fault::layer::Layer;
use fault::refusal::Refusal;

#[derive(Clone, Copy, PartialEq, Eq, Debug)]
pub enum BoardFault {
    OutOfRange = 2,
    Beyond = 20,
}

impl Refusal for BoardFault {
    ghost numbered = { number_of };

    ghost layered = { layer_of };

    ghost lined = { line_of };

    // Kept: its number is its discriminant, so the cast needs no second table.
    fn number(&self) -> u8 {
        *self as u8
    }

    fn layer(&self) -> Layer {
        Layer::Board
    }

    fn line(&self) -> u32 {
        0
    }
}
