// What the rules promise, each as the contract of a small function.
ghost use Rattle.rules.specs.Laws.{LawOfWholeRuns};
ghost use Rattle.rules.specs.Others.{RuledOut};
ghost use Rattle.rules.specs.Quiet.{NothingRunsOn};
ghost use Rattle.rules.specs.Rooms.{ThereIsRoom};
ghost use Rattle.rules.specs.Samples.{EveningsHold};

// Over every mission, bank, boards, trace and number, and every list of ticks, halts and closes after an
// accepted opening: each named skill runs exactly while its leaf is on the running front, its starts are
// its passes, fails and halts and one more while it runs, and regrouping changes nothing that is seen.
pub fn whole_runs_are_accounted_for_and_regroup()
    ensures { LawOfWholeRuns }
{}

// A skill that is not on the front does not run after a call, and none runs below a node that has passed,
// failed or been halted.
pub fn nothing_runs_on()
    ensures { NothingRunsOn }
{}

// An open place always has the lines free that its closing writes, whatever others do to bank and boards.
pub fn a_closing_has_room()
    ensures { ThereIsRoom }
{}

// An executive that fails each tick or repeats its first one does not keep the rules, and halting a
// dropped branch late, visiting finished children again and remembering past a halt break them.
pub fn shortcuts_are_ruled_out()
    ensures { RuledOut }
{}

// Six sample evenings, as one list.
pub fn sample_evenings_hold()
    ensures { EveningsHold }
{}
