ghost use Rattle.std.specs.Prelude.{◌≡◌, Some};
ghost use Rattle.mission.specs.Faults.{flaw_number};
ghost use Rattle.mission.specs.Words.{flaw_words};
ghost use Rattle.mission.specs.declared.flaw.Flaw.TheVariants.{Range as OutOfRange};

use entry::entry_fault::EntryFault;
use std::error::Error;
use std::fmt;

// What can be wrong with a line by itself.
#[derive(Clone, Copy, PartialEq, Eq, Debug)]
pub enum Flaw {
    // It is not of its form, is missing, or follows the last.
    Form = 1,
    // A number is outside its range.
    Range = 2,
}

impl Flaw {
    // Its number among the refusals.
    // Kept: its number is its discriminant, so the cast needs no second table.
    pub fn number(self) -> u8
        ensures { result ≡ flaw_number self }
    {
        self as u8
    }

    // Words that help a writer mend the line.
    // Kept beside Display, which prints them: these always come, and a format may fail.
    pub fn words(self) -> &'static str
        ensures { result.now ≡ flaw_words self }
    {
        match self {
            Flaw::Form => "the line is not of its form, is missing, or follows the last node",
            Flaw::Range => "a number of the line is outside its range",
        }
    }
}

// A part of an entry out of its range is a number out of its range.
impl From<EntryFault> for Flaw {
    ghost from_gives = { λ e r. r ≡ OutOfRange };

    fn from(_: EntryFault) -> Flaw {
        Flaw::Range
    }
}

// A flaw is printed as its words.
impl fmt::Display for Flaw {
    ghost output = { λ f. Some (flaw_words f) };

    fn fmt<W: fmt::Write>(&self, f: &mut fmt::Formatter<W>) -> fmt::Result {
        f.write_str(self.words())
    }
}

impl Error for Flaw {}
