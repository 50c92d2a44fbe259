use crate::executive::Executive;
use crate::leaf_state::LeafState;
use crate::memory::Memory;
use bank::banks::Bank;
use bank::kinds::Ending;
use bank::parts::{GivenTake, Recorded};
use board::boards::Board;
use board::parts::{AbilityCells, CountCells};
use entry::parts::{Ability, Count};
use mission::mission::Mission;
use rules::line::Line;
use rules::status::Status;
use rules::word::Word;
use std::process::Abort;
use std::test::Fail;

const UNUSED: Line = Line {
    tick: 0,
    word: 0,
    skill: 0,
    mark: 0,
};

// An executive with what it is lent.
#[derive(Drop)]
struct Evening {
    executive: Executive,
    bank: Recorded,
    counts: CountCells,
    abilities: AbilityCells,
    trace: [Line; 32],
}

// A take of a skill: so many runs, then a pass with a mark.
fn take(skill: u8, runs: u16, mark: i8) -> Result<GivenTake, Fail> {
    Ok(GivenTake::new(skill, runs, Ending::Pass(mark))?)
}

impl Evening {
    fn new(text: &[u8], takes: &[GivenTake]) -> Result<Evening, Fail> {
        let mut mission = Mission::new();
        mission.read(text)?;
        Ok(Evening {
            executive: Executive::of(&mission),
            bank: Recorded::new(2, takes)?,
            counts: CountCells::new(1)?,
            abilities: AbilityCells::new(1)?,
            trace: [UNUSED; 32],
        })
    }

    // The next visit of the root has this status and writes these lines: the words of skills, and marks.
    fn ticks<R: Abort>(
        &mut self,
        rt: &R,
        status: Status,
        said: &[(Word, u8, i32)],
    ) -> Result<(), Fail> {
        let from = self.executive.ledger.used;
        self.executive.ledger.tick = self.executive.ledger.tick.saturating_add(1);
        let answer = self.executive.visit(
            &mut self.bank,
            &mut self.counts,
            &mut self.abilities,
            &mut self.trace,
        )?;
        assert_eq!(rt; answer, status);
        let used = self.executive.ledger.used;
        let lines = self.trace.get(from..used).ok_or("fewer lines than before")?;
        assert_eq!(rt; lines.len(), said.len());
        for (line, (word, skill, mark)) in lines.iter().zip(said) {
            let tick = self.executive.ledger.tick;
            assert_eq!(rt; (line.tick, line.word), (tick, word.number()));
            assert_eq!(rt; (line.skill, line.mark), (*skill, *mark));
        }
        assert!(rt; self.trace.iter().skip(used).all(|line| *line == UNUSED));
        Ok(())
    }
}

#[test]
fn an_mseq_goes_on_and_its_marks_make_an_ability(rt: HostRuntime) -> Result<(), Fail> {
    let mut evening = Evening::new(
        b"mission=1\ncounts=0\nabilities=1\nnodes=5\n\
        node=fall kids=2\nnode=ability key=0 least=-1 over=2\nnode=mseq kids=2\n\
        node=skill skill=0 device=none into=ability key=0 weight=2\n\
        node=skill skill=1 device=none into=none key=none weight=none\n",
        &[take(0, 1, -3)?, take(1, 0, 4)?],
    )?;
    evening.ticks(&rt, Status::Run, &[(Word::Start, 0, 0), (Word::Run, 0, 0)])?;
    evening.ticks(
        &rt,
        Status::Pass,
        &[(Word::Pass, 0, -3), (Word::Start, 1, 0), (Word::Pass, 1, 4)],
    )?;
    assert_eq!(rt; evening.abilities.read(0), Some(Ability::new(-6, 2)?));
    Ok(())
}

#[test]
fn a_seq_begins_anew_and_halts_what_it_drops(rt: HostRuntime) -> Result<(), Fail> {
    let mut evening = Evening::new(
        b"mission=1\ncounts=0\nabilities=0\nnodes=3\nnode=seq kids=2\n\
        node=skill skill=0 device=none into=none key=none weight=none\n\
        node=skill skill=1 device=none into=none key=none weight=none\n",
        &[take(0, 0, 1)?, take(0, 1, 2)?, take(1, 5, 3)?],
    )?;
    evening.ticks(
        &rt,
        Status::Run,
        &[
            (Word::Start, 0, 0),
            (Word::Pass, 0, 1),
            (Word::Start, 1, 0),
            (Word::Run, 1, 0),
        ],
    )?;
    evening.ticks(
        &rt,
        Status::Run,
        &[(Word::Start, 0, 0), (Word::Run, 0, 0), (Word::Halt, 1, 0)],
    )?;
    assert_eq!(rt; evening.executive.ledger.state(1), LeafState::Idle);
    Ok(())
}

#[test]
fn an_mseq_stays_at_the_child_that_runs(rt: HostRuntime) -> Result<(), Fail> {
    let mut evening = Evening::new(
        b"mission=1\ncounts=0\nabilities=0\nnodes=3\nnode=mseq kids=2\n\
        node=skill skill=0 device=none into=none key=none weight=none\n\
        node=skill skill=1 device=none into=none key=none weight=none\n",
        &[take(0, 0, 1)?, take(0, 1, 2)?, take(1, 5, 3)?],
    )?;
    evening.ticks(
        &rt,
        Status::Run,
        &[
            (Word::Start, 0, 0),
            (Word::Pass, 0, 1),
            (Word::Start, 1, 0),
            (Word::Run, 1, 0),
        ],
    )?;
    evening.ticks(&rt, Status::Run, &[(Word::Run, 1, 0)])?;
    assert_eq!(rt; evening.executive.memory(0), Memory::Child(1));
    Ok(())
}

#[test]
fn a_par_whose_device_is_held_fails_and_halts(rt: HostRuntime) -> Result<(), Fail> {
    let mut evening = Evening::new(
        b"mission=1\ncounts=0\nabilities=0\nnodes=3\nnode=par kids=2 need=2\n\
        node=skill skill=0 device=0 into=none key=none weight=none\n\
        node=skill skill=1 device=0 into=none key=none weight=none\n",
        &[take(0, 1, 1)?, take(1, 1, 2)?],
    )?;
    evening.ticks(
        &rt,
        Status::Fail,
        &[
            (Word::Start, 0, 0),
            (Word::Run, 0, 0),
            (Word::Blocked, 1, 0),
            (Word::Halt, 0, 0),
        ],
    )?;
    assert_eq!(rt; evening.executive.memory(0), Memory::Nothing);
    Ok(())
}

#[test]
fn a_count_that_is_full_fails_its_leaf(rt: HostRuntime) -> Result<(), Fail> {
    let mut evening = Evening::new(
        b"mission=1\ncounts=1\nabilities=0\nnodes=1\n\
        node=skill skill=0 device=none into=count key=0 weight=none\n",
        &[take(0, 0, 1)?, take(0, 0, 2)?],
    )?;
    evening.counts.write(0, Count::new(999_999)?)?;
    evening.ticks(
        &rt,
        Status::Pass,
        &[(Word::Start, 0, 0), (Word::Pass, 0, 1)],
    )?;
    evening.ticks(
        &rt,
        Status::Fail,
        &[(Word::Start, 0, 0), (Word::Pass, 0, 2), (Word::Full, 0, 0)],
    )?;
    assert_eq!(rt; evening.counts.read(0), Some(Count::new(1_000_000)?));
    Ok(())
}

#[test]
fn a_retry_counts_the_fails_of_its_child(rt: HostRuntime) -> Result<(), Fail> {
    let mut evening = Evening::new(
        b"mission=1\ncounts=1\nabilities=0\nnodes=2\nnode=retry times=2\n\
        node=count key=0 least=0\n",
        &[],
    )?;
    evening.ticks(&rt, Status::Run, &[])?;
    assert_eq!(rt; evening.executive.memory(0), Memory::Count(1));
    evening.ticks(&rt, Status::Fail, &[])?;
    assert_eq!(rt; evening.executive.memory(0), Memory::Nothing);
    Ok(())
}

#[test]
fn a_halting_walk_halts_and_forgets(rt: HostRuntime) -> Result<(), Fail> {
    let mut evening = Evening::new(
        b"mission=1\ncounts=0\nabilities=0\nnodes=3\nnode=mseq kids=2\n\
        node=skill skill=0 device=none into=none key=none weight=none\n\
        node=skill skill=1 device=none into=none key=none weight=none\n",
        &[take(0, 0, 1)?, take(1, 5, 3)?],
    )?;
    evening.ticks(
        &rt,
        Status::Run,
        &[
            (Word::Start, 0, 0),
            (Word::Pass, 0, 1),
            (Word::Start, 1, 0),
            (Word::Run, 1, 0),
        ],
    )?;
    evening
        .executive
        .halt_range(&mut evening.bank, &mut evening.trace, 0, 3)?;
    assert_eq!(rt; evening.executive.memory(0), Memory::Nothing);
    assert!(rt; !evening.bank.running(1));
    assert_eq!(rt;
        evening.trace[4],
        Line {
            tick: 1,
            word: Word::Halt.number(),
            skill: 1,
            mark: 0
        }
    );
    Ok(())
}
