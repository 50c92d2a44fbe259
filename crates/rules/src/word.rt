ghost use Rattle.std.specs.Prelude.{◌≡◌};
ghost use Rattle.rules.specs.Lines.{number as number_of};

// What a trace line tells: of a skill, or of the root.
#[derive(Clone, Copy, PartialEq, Eq, Debug)]
pub enum Word {
    Start,
    Run,
    Pass,
    Fail,
    Halt,
    Blocked,
    Full,
    RootRun,
    RootPass,
    RootFail,
    RootHalt,
    RootClosed,
}

impl Word {
    // Its number in a trace line. The words stand in the order of their numbers, so the cast is the number.
    // Kept a method, not a From: that would be no plainer, and faults are asked for theirs by this name.
    pub fn number(self) -> u8
        ensures { result ≡ number_of self }
    {
        self as u8
    }
}
