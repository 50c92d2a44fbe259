ghost use Rattle.std.specs.Prelude.{◌≡◌, Some};
ghost use Rattle.mission.specs.Lawful.{number as number_of};
ghost use Rattle.mission.specs.Words.{breach_words};

use std::error::Error;
use std::fmt;

// The ways in which a node can break the law of the tree.
#[derive(Clone, Copy, PartialEq, Eq, Debug)]
pub enum Breach {
    // It finds no open place, or it is the last and places stay open.
    Place = 3,
    // It is below level 16.
    Level = 4,
    // Its skill was named on an earlier line.
    Twice = 5,
    // Its key is not below the declared number.
    Key = 6,
    // It needs more children than it has.
    Need = 7,
}

impl Breach {
    // Its number among the refusals.
    // Kept: its number is its discriminant, so the cast needs no second table.
    pub fn number(self) -> u8
        ensures { result ≡ number_of self }
    {
        self as u8
    }

    // Words that help a writer mend the line.
    // Kept beside Display, which prints them: these always come, and a format may fail.
    pub fn words(self) -> &'static str
        ensures { result.now ≡ breach_words self }
    {
        match self {
            Breach::Place =>
                "the node finds no open place, or places stay open after the last node",
            Breach::Level => "the node is below level 16",
            Breach::Twice => "the skill was named on an earlier line",
            Breach::Key => "the key is not below its declared number",
            Breach::Need => "need exceeds kids",
        }
    }
}

// A breach is printed as its words.
impl fmt::Display for Breach {
    ghost output = { λ b. Some (breach_words b) };

    fn fmt<W: fmt::Write>(&self, f: &mut fmt::Formatter<W>) -> fmt::Result {
        f.write_str(self.words())
    }
}

impl Error for Breach {}
