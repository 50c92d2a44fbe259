// One line of a trace, as the caller's row holds it.
// Kept: the word is a number here, since the rules count lines by it and a row may hold any byte there.
#[derive(Clone, Copy, PartialEq, Eq, Debug)]
pub struct Line {
    pub tick: u32,
    pub word: u8,
    pub skill: u8,
    pub mark: i32,
}
