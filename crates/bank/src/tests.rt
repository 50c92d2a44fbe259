use crate::bank_fault::BankFault;
use crate::banks::Bank;
use crate::kinds::{Ending, Reply};
use crate::parts::{Cap, GivenTake, Pair, Recorded, Timed, Timing};
use fault::layer::Layer;
use fault::refusal::Refusal;
use std::process::Abort;
use std::test::Fail;

// A call on a skill.
#[derive(Clone, Copy)]
enum Call {
    Start(u8),
    Poll(u8),
    Halt(u8),
    Runs(u8),
}

// What a call answers: one word each, so that a table of calls can be read.
#[derive(Clone, Copy, PartialEq, Eq, Debug)]
enum Said {
    Done,
    Run,
    Failed,
    Passed(i8),
    Refused(u8),
    Yes,
    No,
}

fn refused(fault: BankFault) -> Said {
    Said::Refused(fault.number())
}

fn done(res: Result<(), BankFault>) -> Said {
    res.map_or_else(refused, |()| Said::Done)
}

fn replied(reply: Reply) -> Said {
    match reply {
        Reply::Run => Said::Run,
        Reply::Ended(Ending::Fail) => Said::Failed,
        Reply::Ended(Ending::Pass(mark)) => Said::Passed(mark),
    }
}

fn say<B: Bank>(bank: &mut B, call: Call) -> Said {
    match call {
        Call::Start(k) => done(bank.start(k)),
        Call::Poll(k) => bank.poll(k).map_or_else(refused, replied),
        Call::Halt(k) => done(bank.halt(k)),
        Call::Runs(k) => if bank.running(k) { Said::Yes } else { Said::No },
    }
}

fn play<B: Bank>(rt: &impl Abort, bank: &mut B, table: &[(Call, Said)]) {
    for (call, said) in table {
        assert_eq!(rt; say(bank, *call), *said);
    }
}

// Skill 0 of two runs and a mark of 7, skill 1 of none and a mark of -100.
fn timed() -> Result<Timed, BankFault> {
    Timed::new(&[Timing::new(2, 7)?, Timing::new(0, -100)?])
}

// Skill 0 is given two takes and skill 1 one.
fn recorded() -> Result<Recorded, BankFault> {
    Recorded::new(
        2,
        &[
            GivenTake::new(0, 1, Ending::Pass(5))?,
            GivenTake::new(1, 2, Ending::Fail)?,
            GivenTake::new(0, 0, Ending::Pass(-3))?,
        ],
    )
}

fn paired() -> Result<Pair<Recorded, Timed>, BankFault> {
    Ok(Pair::new(recorded()?, timed()?)?)
}

fn capped<B: Bank + Drop>(below: B, limit: u16) -> Result<Cap<B>, BankFault> {
    Ok(Cap::new(below, limit)?)
}

#[test]
fn a_timed_bank_repeats_its_takes(rt: HostRuntime) -> Result<(), Fail> {
    let mut bank = timed()?;
    assert_eq!(rt; bank.width(), 2);
    play(
        &rt,
        &mut bank,
        &[
            (Call::Poll(0), Said::Refused(19)),
            (Call::Halt(0), Said::Refused(19)),
            (Call::Start(0), Said::Done),
            (Call::Start(0), Said::Refused(18)),
            (Call::Poll(0), Said::Run),
            (Call::Runs(0), Said::Yes),
            (Call::Runs(1), Said::No),
            (Call::Poll(0), Said::Run),
            (Call::Poll(0), Said::Passed(7)),
            (Call::Runs(0), Said::No),
            (Call::Start(0), Said::Done),
            (Call::Halt(0), Said::Done),
            (Call::Start(1), Said::Done),
            (Call::Poll(1), Said::Passed(-100)),
        ],
    );
    play(
        &rt,
        &mut bank,
        &[
            (Call::Start(2), Said::Refused(17)),
            (Call::Poll(2), Said::Refused(17)),
            (Call::Halt(255), Said::Refused(17)),
            (Call::Runs(2), Said::No),
        ],
    );
    Ok(())
}

#[test]
fn a_recorded_bank_fails_past_its_last_take(rt: HostRuntime) -> Result<(), Fail> {
    let mut bank = recorded()?;
    assert_eq!(rt; bank.width(), 2);
    play(
        &rt,
        &mut bank,
        &[
            (Call::Poll(0), Said::Refused(19)),
            (Call::Start(0), Said::Done),
            (Call::Start(1), Said::Done),
            (Call::Start(1), Said::Refused(18)),
            (Call::Poll(0), Said::Run),
            (Call::Poll(0), Said::Passed(5)),
            (Call::Start(0), Said::Done),
            (Call::Poll(0), Said::Passed(-3)),
            (Call::Start(0), Said::Done),
            (Call::Poll(0), Said::Failed),
            (Call::Start(0), Said::Done),
            (Call::Poll(0), Said::Failed),
        ],
    );
    play(
        &rt,
        &mut bank,
        &[
            (Call::Poll(1), Said::Run),
            (Call::Halt(1), Said::Done),
            (Call::Halt(1), Said::Refused(19)),
            (Call::Start(1), Said::Done),
            (Call::Poll(1), Said::Failed),
            (Call::Start(2), Said::Refused(17)),
            (Call::Runs(2), Said::No),
        ],
    );
    Ok(())
}

#[test]
fn a_pair_has_the_second_after_the_first(rt: HostRuntime) -> Result<(), Fail> {
    let mut bank = paired()?;
    assert_eq!(rt; bank.width(), 4);
    play(
        &rt,
        &mut bank,
        &[
            (Call::Start(2), Said::Done),
            (Call::Runs(0), Said::No),
            (Call::Start(0), Said::Done),
            (Call::Poll(2), Said::Run),
            (Call::Poll(0), Said::Run),
            (Call::Poll(0), Said::Passed(5)),
            (Call::Halt(2), Said::Done),
            (Call::Poll(2), Said::Refused(19)),
            (Call::Start(3), Said::Done),
            (Call::Poll(3), Said::Passed(-100)),
            (Call::Start(4), Said::Refused(17)),
            (Call::Halt(64), Said::Refused(17)),
            (Call::Runs(200), Said::No),
        ],
    );
    Ok(())
}

#[test]
fn a_cap_cuts_longer_takes(rt: HostRuntime) -> Result<(), Fail> {
    let mut below = capped(timed()?, 1)?;
    let mut at = capped(timed()?, 2)?;
    let mut above = capped(timed()?, 3)?;
    play(
        &rt,
        &mut below,
        &[
            (Call::Start(0), Said::Done),
            (Call::Poll(0), Said::Run),
            (Call::Poll(0), Said::Failed),
            (Call::Runs(0), Said::No),
            (Call::Poll(0), Said::Refused(19)),
            (Call::Start(1), Said::Done),
            (Call::Poll(1), Said::Passed(-100)),
        ],
    );
    let whole = [
        (Call::Start(0), Said::Done),
        (Call::Start(0), Said::Refused(18)),
        (Call::Poll(0), Said::Run),
        (Call::Poll(0), Said::Run),
        (Call::Poll(0), Said::Passed(7)),
        (Call::Halt(2), Said::Refused(17)),
    ];
    play(&rt, &mut at, &whole);
    play(&rt, &mut above, &whole);
    Ok(())
}

#[test]
fn a_cap_halts_what_runs_below_a_pair(rt: HostRuntime) -> Result<(), Fail> {
    let mut pair = paired()?;
    assert_eq!(rt; done(pair.start(0)), Said::Done);
    let mut bank = capped(pair, 1)?;
    assert_eq!(rt; bank.width(), 4);
    play(
        &rt,
        &mut bank,
        &[
            (Call::Runs(0), Said::No),
            (Call::Start(0), Said::Done),
            (Call::Poll(0), Said::Passed(-3)),
            (Call::Start(1), Said::Done),
            (Call::Poll(1), Said::Run),
            (Call::Poll(1), Said::Failed),
            (Call::Start(2), Said::Done),
            (Call::Poll(2), Said::Run),
            (Call::Poll(2), Said::Failed),
            (Call::Start(3), Said::Done),
            (Call::Poll(3), Said::Passed(-100)),
            (Call::Start(4), Said::Refused(17)),
        ],
    );
    Ok(())
}

#[test]
fn making_refuses_what_is_out_of_range(rt: HostRuntime) -> Result<(), Fail> {
    let timing = Timing::new(60_000, 100)?;
    let take = GivenTake::new(3, 60_000, Ending::Pass(-100))?;
    assert!(rt; Timing::new(60_001, 0).is_err() && Timing::new(0, 101).is_err());
    assert!(rt; Timing::new(0, -101).is_err());
    assert!(rt; GivenTake::new(0, 60_001, Ending::Fail).is_err());
    assert!(rt; GivenTake::new(0, 0, Ending::Pass(101)).is_err());
    assert!(rt; Timed::new(&[timing; 64]).is_ok() && Timed::new(&[timing; 65]).is_err());
    assert!(rt;
        Recorded::new(4, &[take; 1024]).is_ok() && Recorded::new(4, &[take; 1025]).is_err()
    );
    assert!(rt; Recorded::new(3, &[take]).is_err() && Recorded::new(65, &[]).is_err());
    assert!(rt; capped(timed()?, 60_000).is_ok() && capped(timed()?, 60_001).is_err());
    let wide = Pair::new(Timed::new(&[timing; 33])?, Timed::new(&[timing; 32])?);
    let refused = wide.err().ok_or("a pair of 65 skills is made")?;
    assert_eq!(rt; refused.given.0.width(), 33);
    assert_eq!(rt; refused.fault, BankFault::OutOfRange);
    assert_eq!(rt; refused.fault.number(), 2);
    assert_eq!(rt; refused.fault.layer(), Layer::Bank);
    assert_eq!(rt; refused.fault.line(), 0);
    Ok(())
}
