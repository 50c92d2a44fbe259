ghost use Rattle.std.specs.Prelude.{◌≡◌, Some};
ghost use Rattle.fault.specs.Layers.{word as word_of};

use std::fmt;

// The layer that a refusal comes from.
#[derive(Clone, Copy, PartialEq, Eq, Debug)]
pub enum Layer {
    Text,
    Tree,
    Sitting,
    Bank,
    Board,
}

impl Layer {
    // The word by which a refusal's line names the layer.
    // Kept beside Display, which prints it: a public function with a promise of its own.
    pub fn word(self) -> &'static str
        ensures { result.now ≡ word_of self }
    {
        match self {
            Layer::Text => "text",
            Layer::Tree => "tree",
            Layer::Sitting => "sitting",
            Layer::Bank => "bank",
            Layer::Board => "board",
        }
    }
}

// A layer is printed as its word.
impl fmt::Display for Layer {
    ghost output = { λ l. Some (word_of l) };

    fn fmt<W: fmt::Write>(&self, f: &mut fmt::Formatter<W>) -> fmt::Result {
        f.write_str(self.word())
    }
}
