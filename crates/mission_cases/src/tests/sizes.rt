// The largest trees: 256 nodes, 16 levels and 32 children, and one more of each.
use crate::tests::case::Case::{Accepted, Refused};
use crate::tests::case::{Case, Tally, declared, judge, on_trial};
use mission::mission::Mission;
use std::alloc::{AllocError, Global};
use std::process::Abort;
use std::test::Fail;

// Node lines with a run of equal lines among them: the lines above the run, its length, its line,
// and the case of the lines below it.
struct Run(&'static [u8], usize, &'static [u8], Case);

const NOT: &[u8] = b"node=not\n";

const LEAF: &[u8] = b"node=count key=0 least=0\n";

// One of each kind that has children, each below the one before it.
const CHAIN: &[u8] = b"node=seq kids=1\nnode=fall kids=1\nnode=mseq kids=1\nnode=mfall kids=1\n\
    node=par kids=1 need=1\nnode=retry times=1\nnode=repeat times=1\n";

static RUNS: [Run; 43] = [
    // Level 16 is the lowest.
    Run(b"", 15, NOT, Accepted(b"node=count key=0 least=0\n")),
    Run(b"", 16, NOT, Refused(4, 21, b"node=count key=0 least=0\n")),
    Run(b"", 17, NOT, Refused(4, 21, b"node=count key=0 least=0\n")),
    Run(b"", 251, NOT, Refused(4, 21, b"node=count key=0 least=0\n")),
    Run(
        b"node=seq kids=2\n",
        14,
        NOT,
        Accepted(b"node=count key=0 least=0\nnode=count key=0 least=0\n"),
    ),
    Run(
        b"node=seq kids=2\nnode=count key=0 least=0\n",
        14,
        NOT,
        Accepted(b"node=count key=0 least=0\n"),
    ),
    Run(
        b"node=seq kids=2\nnode=count key=0 least=0\n",
        15,
        NOT,
        Refused(4, 22, b"node=count key=0 least=0\n"),
    ),
    Run(CHAIN, 8, NOT, Accepted(b"node=count key=0 least=0\n")),
    Run(CHAIN, 9, NOT, Refused(4, 21, b"node=count key=0 least=0\n")),
    // On one line: 3 before 4, and 4 before 5, 6 and 7.
    Run(b"", 16, NOT, Refused(3, 20, b"")),
    Run(b"", 17, NOT, Refused(3, 21, b"")),
    Run(
        b"node=seq kids=2\nnode=skill skill=0 device=none into=none key=none weight=none\n",
        15,
        NOT,
        Refused(
            4,
            22,
            b"node=skill skill=0 device=none into=none key=none weight=none\n",
        ),
    ),
    Run(b"", 16, NOT, Refused(4, 21, b"node=count key=1 least=0\n")),
    Run(
        b"",
        16,
        NOT,
        Refused(4, 21, b"node=par kids=1 need=2\nnode=count key=0 least=0\n"),
    ),
    // The lower line comes first: its 4 before 3, 5, 6 and 7.
    Run(b"", 18, NOT, Refused(4, 21, b"")),
    Run(
        b"",
        16,
        NOT,
        Refused(
            4,
            21,
            b"node=count key=0 least=0\nnode=count key=0 least=0\n",
        ),
    ),
    Run(
        b"node=seq kids=2\nnode=skill skill=0 device=none into=none key=none weight=none\n",
        16,
        NOT,
        Refused(
            4,
            22,
            b"node=skill skill=0 device=none into=none key=none weight=none\n",
        ),
    ),
    Run(b"", 17, NOT, Refused(4, 21, b"node=count key=1 least=0\n")),
    Run(
        b"",
        17,
        NOT,
        Refused(4, 21, b"node=par kids=1 need=2\nnode=count key=0 least=0\n"),
    ),
    // Its 5, 6 and 7 before 4.
    Run(
        b"node=seq kids=3\n\
        node=skill skill=0 device=none into=none key=none weight=none\n\
        node=skill skill=0 device=none into=none key=none weight=none\n",
        15,
        NOT,
        Refused(5, 7, b"node=count key=0 least=0\n"),
    ),
    Run(
        b"node=seq kids=2\nnode=count key=1 least=0\n",
        15,
        NOT,
        Refused(6, 6, b"node=count key=0 least=0\n"),
    ),
    Run(
        b"node=par kids=1 need=2\n",
        15,
        NOT,
        Refused(7, 5, b"node=count key=0 least=0\n"),
    ),
    // The text comes before the tree: 1 and 2 before 4, on a later line and on the same.
    Run(b"", 17, NOT, Refused(1, 22, b"node=count key=0\n")),
    Run(b"", 17, NOT, Refused(2, 22, b"node=count key=32 least=0\n")),
    Run(b"", 16, NOT, Refused(1, 21, b"node=count key=0\n")),
    Run(b"", 16, NOT, Refused(2, 21, b"node=count key=32 least=0\n")),
    // 32 children are the most.
    Run(b"node=seq kids=32\n", 32, LEAF, Accepted(b"")),
    Run(b"node=fall kids=32\n", 32, LEAF, Accepted(b"")),
    Run(b"node=mseq kids=32\n", 32, LEAF, Accepted(b"")),
    Run(b"node=mfall kids=32\n", 32, LEAF, Accepted(b"")),
    Run(b"node=par kids=32 need=32\n", 32, LEAF, Accepted(b"")),
    Run(
        b"node=par kids=32 need=1\n",
        31,
        LEAF,
        Accepted(b"node=not\nnode=count key=0 least=0\n"),
    ),
    Run(b"node=seq kids=33\n", 33, LEAF, Refused(2, 5, b"")),
    Run(b"node=fall kids=33\n", 33, LEAF, Refused(2, 5, b"")),
    Run(b"node=mseq kids=33\n", 33, LEAF, Refused(2, 5, b"")),
    Run(b"node=mfall kids=33\n", 33, LEAF, Refused(2, 5, b"")),
    Run(b"node=par kids=33 need=32\n", 33, LEAF, Refused(2, 5, b"")),
    Run(b"node=seq kids=32\n", 31, LEAF, Refused(3, 36, b"")),
    Run(b"node=seq kids=32\n", 33, LEAF, Refused(3, 38, b"")),
    Run(b"node=par kids=31 need=32\n", 31, LEAF, Refused(7, 5, b"")),
    // 256 nodes are the most, and they are judged to the last.
    Run(b"", 255, LEAF, Refused(3, 6, b"node=count key=0 least=0\n")),
    Run(
        b"",
        255,
        LEAF,
        Refused(1, 260, b"node=count key=0 least=x\n"),
    ),
    Run(b"", 256, LEAF, Refused(2, 4, b"node=count key=0 least=x\n")),
];

#[test]
fn runs_have_their_verdicts(rt: HostRuntime) -> Result<(), Fail> {
    let tally = judge_runs(&rt, &RUNS)?;
    assert_eq!(rt; tally, [10, 3, 8, 5, 13, 1, 1, 2]);
    Ok(())
}

// Judges a table of runs.
// Kept beside `judge_whole` and `judge_nodes`: a call that is given a closure over the lent lines gets no proof.
fn judge_runs<R: Abort + AllocGlobal>(rt: &R, runs: &[Run]) -> Result<Tally, Fail> {
    let heap = rt.alloc();
    let mut tally = [0; 8];
    for Run(above, times, line, case) in runs {
        let lines = with_run(heap, above, *times, line)?;
        let text = declared(heap, lines.as_slice(), case.text())?;
        judge(rt, text.as_slice(), case, &mut tally)?;
    }
    Ok(tally)
}

// The lines above the run, and the run.
fn with_run(heap: Global, above: &[u8], times: usize, line: &[u8]) -> Result<Vec<u8>, AllocError> {
    let mut lines = Vec::from_slice(heap, above)?;
    lines.extend_from_slice(line.repeat(heap, times)?.as_slice())?;
    Ok(lines)
}

const LAST: &[u8] = b"node=ability key=31 least=-10000 over=100\n";

const HEAD: &[u8] = b"mission=1\ncounts=32\nabilities=32\nnodes=256\n";

const ROOT: &[u8] = b"node=seq kids=15\n";

// A text of 256 nodes: below the root are 15 groups of 16 leaves, with every skill named.
fn crowd(heap: Global, root: &[u8]) -> Result<Vec<u8>, AllocError> {
    let mut text = Vec::from_slice(heap, HEAD)?;
    text.extend_from_slice(root)?;
    for leaf in 0..240u32 {
        if leaf % 16 == 0 {
            text.extend_from_slice(b"node=par kids=16 need=16\n")?;
        }
        if leaf < 64 {
            let skill = format!(in heap; "node=skill skill={leaf}")?;
            text.extend_from_slice(skill.as_bytes())?;
            text.extend_from_slice(b" device=none into=ability key=31 weight=100\n")?;
        } else {
            text.extend_from_slice(LAST)?;
        }
    }
    Ok(text)
}

#[test]
fn a_text_of_256_nodes_is_accepted(rt: HostRuntime) -> Result<(), Fail> {
    let heap = rt.alloc();
    let text = crowd(heap, ROOT)?;
    on_trial(&rt, "256 nodes").accept(text.as_slice())?;
    let mut place = Mission::new();
    place.read(text.as_slice())?;
    assert_eq!(rt; (place.counts(), place.abilities()), (32, 32));
    assert_eq!(rt; (place.nodes().len(), place.skills()), (256, 64));
    Ok(())
}

#[test]
fn a_line_more_or_less_is_refused(rt: HostRuntime) -> Result<(), Fail> {
    let heap = rt.alloc();
    let mut text = crowd(heap, ROOT)?;
    let len = text.len();
    text.extend_from_slice(LAST)?;
    on_trial(&rt, "a line more").refuse(text.as_slice(), 1, 261)?;
    text.truncate(len.saturating_sub(1));
    on_trial(&rt, "no last end").refuse(text.as_slice(), 1, 260)?;
    text.truncate(len.saturating_sub(LAST.len()));
    on_trial(&rt, "a line less").refuse(text.as_slice(), 1, 260)?;
    let few = crowd(heap, b"node=seq kids=14\n")?;
    on_trial(&rt, "places short").refuse(few.as_slice(), 3, 244)?;
    let many = crowd(heap, b"node=seq kids=16\n")?;
    on_trial(&rt, "places over").refuse(many.as_slice(), 3, 260)
}
