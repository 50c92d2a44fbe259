// A text taken line by line.
ghost use Rattle.std.specs.Prelude.{◌≡◌, [], ◌≢◌, MatchResult};
ghost use Rattle.mission.specs.Reading.{LineTaken, next_number};
ghost use Rattle.mission.specs.declared.flaw.Flaw.TheVariants.{Form as NotOfForm};

use crate::flaw::Flaw;
use crate::line_fault::LineFault;
use text::cut::cut;
use text::line::Line;

// What is left of a text, and the number of the line that was taken last.
#[derive(Drop)]
pub(crate) struct Lines<'a> {
    pub(crate) rest: &'a [u8],
    pub(crate) line: u32,
}

impl<'a> Lines<'a> {
    // A whole text.
    pub(crate) fn of(text: &'a [u8]) -> Lines<'a>
        ensures rest { result.rest.now ≡ text.now }
        ensures line { result.line ≡ 0 }
    {
        Lines {
            rest: text,
            line: 0,
        }
    }

    // The next line. One that is missing, or has no end, is not of its form. The number
    // stays at the last one, so that no caller owes a bound.
    pub(crate) fn take(&mut self) -> Result<Line<'a>, LineFault>
        ensures { LineTaken self.old result self.new }
    {
        self.line = self.line.saturating_add(1);
        let (text, rest) = cut(self.rest, b'\n').ok_or(Flaw::Form.at(self.line))?;
        self.rest = rest;
        Ok(Line {
            text,
            number: self.line,
        })
    }

    // Nothing is left. A line that is left is not of its form.
    pub(crate) fn end(mut self) -> Result<(), LineFault>
        ensures { MatchResult result (λ _. self.entry.rest.now ≡ []) (λ f. (self.entry.rest.now ≢ []) × (f.flaw ≡ NotOfForm) × (f.line ≡ next_number self.entry.line)) }
    {
        self.line = self.line.saturating_add(1);
        if self.rest.is_empty() {
            Ok(())
        } else {
            Err(Flaw::Form.at(self.line))
        }
    }
}
