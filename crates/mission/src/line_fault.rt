ghost use Rattle.std.specs.Prelude.{◌≡◌};
ghost use Rattle.mission.specs.Faults.{flaw_number, text_layer};

use crate::flaw::Flaw;
use fault::layer::Layer;
use fault::refusal::Refusal;

// The fault of a line of a text, with its line from 1.
#[derive(Clone, Copy, PartialEq, Eq, Debug)]
pub struct LineFault {
    pub flaw: Flaw,
    pub line: u32,
}

impl Flaw {
    // This flaw, at its line.
    pub(crate) fn at(self, line: u32) -> LineFault
        ensures flaw { result.flaw ≡ self }
        ensures line { result.line ≡ line }
    {
        LineFault { flaw: self, line }
    }
}

impl Refusal for LineFault {
    ghost numbered = { λ f. flaw_number f.flaw };

    ghost layered = { λ f. text_layer };

    ghost lined = { λ f. f.line };

    fn number(&self) -> u8 {
        self.flaw.number()
    }

    fn layer(&self) -> Layer {
        Layer::Text
    }

    fn line(&self) -> u32 {
        self.line
    }
}
