// How a text is held to its verdict.
use fault::layer::Layer;
use fault::refusal::Refusal;
use mission::mission::Mission;
use std::alloc::{AllocError, Global};
use std::process::Abort;
use std::test::Fail;

// A text and its verdict: it is accepted, or refused with a number at a line.
// Kept an enum of its own, not a Result beside a text, and the refusal by its number: a row of a table
// reads as its verdict, and as the list of refusals prints it.
pub enum Case {
    Accepted(&'static [u8]),
    Refused(u8, u32, &'static [u8]),
}

impl Case {
    pub(crate) fn text(&self) -> &'static [u8] {
        match self {
            Case::Accepted(text) | Case::Refused(_, _, text) => text,
        }
    }
}

// How many texts were accepted, at 0, and how many were refused with each number.
// Kept an array: a test names the whole of it in one line, and a map would name its keys too.
pub type Tally = [usize; 8];

// What a fresh place holds.
pub const FRESH: &[u8] = b"mission=1\ncounts=1\nabilities=0\nnodes=1\nnode=count key=0 least=0\n";

// What another place holds before a text is read.
const FORMER: &[u8] = b"mission=1\ncounts=2\nabilities=3\nnodes=4\n\
    node=par kids=2 need=1\n\
    node=retry times=7\n\
    node=skill skill=5 device=none into=ability key=2 weight=9\n\
    node=count key=1 least=-8\n";

// A case on trial: the runtime that a failure stops, and what a failure shows of the case.
#[derive(Drop)]
pub(crate) struct Trial<'a, R> {
    pub(crate) rt: &'a R,
    pub(crate) told: &'a str,
}

pub(crate) fn on_trial<'a, R>(rt: &'a R, told: &'a str) -> Trial<'a, R> {
    Trial { rt, told }
}

impl<R: Abort + AllocGlobal> Trial<'_, R> {
    // Reads a text that is to be accepted.
    fn read(&self, place: &mut Mission, text: &[u8]) -> Result<(), Fail> {
        let told = self.told;
        place.read(text).map_err(|fault| Fail::new(format_args!("error: {fault:?}: {told}")))
    }

    // The text is accepted, whatever the place holds, and writing gives it back.
    pub(crate) fn accept(&self, text: &[u8]) -> Result<(), Fail> {
        let mut place = Mission::new();
        self.read(&mut place, text)?;
        self.check_writes(&place, text)?;
        self.read(&mut place, FORMER)?;
        self.read(&mut place, text)?;
        self.check_writes(&place, text)
    }

    // The text is refused with this number at this line, and the place stays as it was.
    pub(crate) fn refuse(&self, text: &[u8], number: u8, line: u32) -> Result<(), Fail> {
        let mut place = Mission::new();
        self.check_refuses(&mut place, text, number, line)?;
        self.check_writes(&place, FRESH)?;
        self.read(&mut place, FORMER)?;
        self.check_writes(&place, FORMER)?;
        self.check_refuses(&mut place, text, number, line)?;
        self.check_writes(&place, FORMER)
    }

    fn check_refuses(
        &self,
        place: &mut Mission,
        text: &[u8],
        number: u8,
        line: u32,
    ) -> Result<(), Fail> {
        let rt = self.rt;
        let told = self.told;
        let fault = place
            .read(text)
            .err()
            .ok_or_else(|| Fail::new(format_args!("the text is accepted: {told}")))?;
        assert_eq!(rt; (fault.number(), fault.line()), (number, line), "{told}");
        let layer = if number <= 2 {
            Layer::Text
        } else {
            Layer::Tree
        };
        assert_eq!(rt; fault.layer(), layer, "{told}");
        Ok(())
    }
}

// Holds a text to the verdict of a case, and counts it.
pub(crate) fn judge<R: Abort + AllocGlobal>(
    rt: &R,
    text: &[u8],
    case: &Case,
    tally: &mut Tally,
) -> Result<(), Fail> {
    let trial = on_trial(rt, shown(case.text()));
    let number = match case {
        Case::Accepted(_) => {
            trial.accept(text)?;
            0
        }
        Case::Refused(number, line, _) => {
            trial.refuse(text, *number, *line)?;
            usize::from(*number)
        }
    };
    if let Some(n) = tally.get_mut(number) {
        *n = n.saturating_add(1);
    }
    Ok(())
}

// Judges a table of what stands between the lines above and those below.
pub(crate) fn judge_whole<R: Abort + AllocGlobal>(
    rt: &R,
    above: &[u8],
    cases: &[Case],
    below: &[u8],
) -> Result<Tally, Fail> {
    let mut tally = [0; 8];
    for case in cases {
        let text = joined(rt.alloc(), above, case.text(), below)?;
        judge(rt, text.as_slice(), case, &mut tally)?;
    }
    Ok(tally)
}

// Judges a table of node lines, below what they begin with.
// Kept beside the one above: a closure over the lines lent for a text has several lifetimes, and a
// call that is given one gets no proof.
pub(crate) fn judge_nodes<R: Abort + AllocGlobal>(
    rt: &R,
    above: &[u8],
    cases: &[Case],
) -> Result<Tally, Fail> {
    let mut tally = [0; 8];
    for case in cases {
        let text = declared(rt.alloc(), above, case.text())?;
        judge(rt, text.as_slice(), case, &mut tally)?;
    }
    Ok(tally)
}

// Three parts of a text, one after another.
fn joined(heap: Global, above: &[u8], between: &[u8], below: &[u8]) -> Result<Vec<u8>, AllocError> {
    let mut text = Vec::from_slice(heap, above)?;
    text.extend_from_slice(between)?;
    text.extend_from_slice(below)?;
    Ok(text)
}

// The text of these node lines: one count, one ability, and as many nodes as there are lines.
pub(crate) fn declared(heap: Global, above: &[u8], below: &[u8]) -> Result<Vec<u8>, AllocError> {
    let nodes = line_ends(above).saturating_add(line_ends(below));
    let head = format!(in heap; "mission=1\ncounts=1\nabilities=1\nnodes={nodes}\n")?;
    joined(heap, head.as_bytes(), above, below)
}

fn line_ends(lines: &[u8]) -> usize {
    lines.iter().filter(|byte| **byte == b'\n').count()
}

// A text as a failure shows it.
fn shown(text: &[u8]) -> &str {
    std::str::from_utf8(text).unwrap_or("a text with bytes above 127")
}
