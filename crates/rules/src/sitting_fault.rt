// Why a sitting refuses a call.
ghost use Rattle.std.specs.Prelude.{◌≡◌};
ghost use Rattle.rules.specs.Faults.{number as number_of, layer as layer_of, line as line_of};
ghost use Rattle.rules.specs.declared.sitting_fault.SittingFault.TheVariants.{Bank as ABank, Board as ABoard};

use bank::bank_fault::BankFault;
use board::board_fault::BoardFault;
use fault::layer::Layer;
use fault::refusal::Refusal;

// A check that holds, or the refusal of the bank or of a board, handed up whole.
#[derive(Clone, Copy, PartialEq, Eq, Debug)]
pub enum SittingFault {
    PlaceOpen,
    PlaceClosed,
    SkillBeyond,
    SkillRuns,
    SkillsDiffer,
    BoardSmall,
    TraceLength,
    TraceFull,
    OtherSlip,
    Bank(BankFault),
    Board(BoardFault),
}

impl From<BankFault> for SittingFault {
    ghost from_gives = { λ e r. r ≡ ABank e };

    fn from(fault: BankFault) -> SittingFault {
        SittingFault::Bank(fault)
    }
}

impl From<BoardFault> for SittingFault {
    ghost from_gives = { λ e r. r ≡ ABoard e };

    fn from(fault: BoardFault) -> SittingFault {
        SittingFault::Board(fault)
    }
}

impl Refusal for SittingFault {
    ghost numbered = { number_of };

    ghost layered = { layer_of };

    ghost lined = { line_of };

    // Kept a match: two variants hand up another layer's number, so no cast gives it.
    fn number(&self) -> u8 {
        match self {
            SittingFault::PlaceOpen => 8,
            SittingFault::PlaceClosed => 9,
            SittingFault::SkillBeyond => 10,
            SittingFault::SkillRuns => 11,
            SittingFault::SkillsDiffer => 12,
            SittingFault::BoardSmall => 13,
            SittingFault::TraceLength => 14,
            SittingFault::TraceFull => 15,
            SittingFault::OtherSlip => 16,
            SittingFault::Bank(fault) => fault.number(),
            SittingFault::Board(fault) => fault.number(),
        }
    }

    fn layer(&self) -> Layer {
        match self {
            SittingFault::Bank(fault) => fault.layer(),
            SittingFault::Board(fault) => fault.layer(),
            _ => Layer::Sitting,
        }
    }

    fn line(&self) -> u32 {
        0
    }
}
