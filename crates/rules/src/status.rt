// What a visited node answers.
#[derive(Clone, Copy, PartialEq, Eq, Debug)]
pub enum Status {
    Run,
    Pass,
    Fail,
}
