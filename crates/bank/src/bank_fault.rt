// Why a bank refuses: a number out of range at making, or a call on a skill.
ghost use Rattle.bank.specs.Faults.{number as number_of, layer as layer_of, line as line_of};

use fault::layer::Layer;
use fault::refusal::Refusal;

#[derive(Clone, Copy, PartialEq, Eq, Debug)]
pub enum BankFault {
    OutOfRange = 2,
    Beyond = 17,
    Running = 18,
    Idle = 19,
}

impl Refusal for BankFault {
    ghost numbered = { number_of };

    ghost layered = { layer_of };

    ghost lined = { line_of };

    // Kept: its number is its discriminant, so the cast needs no second table.
    fn number(&self) -> u8 {
        *self as u8
    }

    fn layer(&self) -> Layer {
        Layer::Bank
    }

    fn line(&self) -> u32 {
        0
    }
}
