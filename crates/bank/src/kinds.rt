// How a take ends, and what a poll answers.

// A take fails, or it passes with a mark.
// Kept: an Option of a mark would not say that a take without one fails.
// Kept a plain `i8`: a type of its range would ask of each caller what making a take tests.
#[derive(Clone, Copy, PartialEq, Eq, Debug)]
pub enum Ending {
    Fail,
    Pass(i8),
}

// One more run, or the ending of the take.
// Kept: as with Ending, an Option would leave out the word.
#[derive(Clone, Copy, PartialEq, Eq, Debug)]
pub enum Reply {
    Run,
    Ended(Ending),
}
