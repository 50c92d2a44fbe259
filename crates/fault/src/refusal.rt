ghost use Rattle.std.specs.Prelude.{◌≡◌, ℕ};
ghost use Rattle.fault.specs.declared.layer.Layer.{Layer as ALayer};

use crate::layer::Layer;

// A refusal of a call: its number, the layer that it comes from, and the line of the text that it
// speaks of (from 1; 0 where no text is read).
// Kept without default bodies: a body of the trait's own would have to hold for every refusal.
pub trait Refusal {
    ghost numbered: { Self → ℕ };

    ghost layered: { Self → ALayer };

    ghost lined: { Self → ℕ };

    fn number(&self) -> u8
        ensures { result ≡ numbered self.now };

    fn layer(&self) -> Layer
        ensures { result ≡ layered self.now };

    fn line(&self) -> u32
        ensures { result ≡ lined self.now };
}
