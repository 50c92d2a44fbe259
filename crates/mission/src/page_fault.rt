ghost use Rattle.mission.specs.Faults.{text_layer};

use fault::layer::Layer;
use fault::refusal::Refusal;

// The text to be written is longer than the page.
#[derive(Clone, Copy, PartialEq, Eq, Debug)]
pub struct PageFault;

impl Refusal for PageFault {
    ghost numbered = { λ f. 21 };

    ghost layered = { λ f. text_layer };

    ghost lined = { λ f. 0 };

    fn number(&self) -> u8 {
        21
    }

    fn layer(&self) -> Layer {
        Layer::Text
    }

    fn line(&self) -> u32 {
        0
    }
}
