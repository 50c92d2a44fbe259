// Trees: open places, skills, keys and needs, and which of two faults comes first.
use crate::tests::case::Case::{Accepted, Refused};
use crate::tests::case::{Case, judge_nodes};
use std::test::Fail;

// Node lines, below one count and one ability.
static TREES: [Case; 75] = [
    // Every kind of node.
    Accepted(b"node=not\nnode=count key=0 least=0\n"),
    Accepted(
        b"node=seq kids=1\nnode=fall kids=1\nnode=mseq kids=1\nnode=mfall kids=1\n\
        node=count key=0 least=0\n",
    ),
    Accepted(b"node=retry times=1\nnode=retry times=60000\nnode=count key=0 least=0\n"),
    Accepted(b"node=repeat times=60000\nnode=repeat times=1\nnode=count key=0 least=0\n"),
    Accepted(b"node=par kids=1 need=1\nnode=count key=0 least=0\n"),
    Accepted(
        b"node=par kids=3 need=2\nnode=count key=0 least=1\nnode=count key=0 least=1\nnode=not\n\
        node=count key=0 least=1\n",
    ),
    Accepted(
        b"node=seq kids=2\nnode=fall kids=2\nnode=count key=0 least=1\nnode=count key=0 least=2\n\
        node=par kids=2 need=2\nnode=count key=0 least=3\nnode=count key=0 least=4\n",
    ),
    Accepted(
        b"node=mseq kids=3\n\
        node=skill skill=0 device=0 into=none key=none weight=none\n\
        node=retry times=2\n\
        node=skill skill=1 device=1 into=ability key=0 weight=4\n\
        node=fall kids=2\n\
        node=ability key=0 least=-5 over=2\n\
        node=skill skill=2 device=none into=count key=0 weight=none\n",
    ),
    // 3: places stay open.
    Refused(3, 5, b"node=not\n"),
    Refused(3, 5, b"node=retry times=1\n"),
    Refused(3, 5, b"node=repeat times=1\n"),
    Refused(3, 5, b"node=seq kids=1\n"),
    Refused(3, 5, b"node=par kids=1 need=1\n"),
    Refused(3, 6, b"node=seq kids=2\nnode=count key=0 least=0\n"),
    Refused(3, 6, b"node=par kids=2 need=1\nnode=count key=0 least=0\n"),
    Refused(3, 7, b"node=not\nnode=not\nnode=not\n"),
    Refused(
        3,
        8,
        b"node=seq kids=2\nnode=fall kids=2\nnode=count key=0 least=0\n\
        node=count key=0 least=0\n",
    ),
    // 3: a node finds no open place.
    Refused(
        3,
        6,
        b"node=count key=0 least=0\nnode=count key=0 least=0\n",
    ),
    Refused(3, 6, b"node=count key=0 least=0\nnode=not\n"),
    Refused(
        3,
        6,
        b"node=count key=0 least=0\nnode=count key=0 least=0\nnode=count key=0 least=0\n",
    ),
    Refused(
        3,
        7,
        b"node=not\nnode=count key=0 least=0\nnode=count key=0 least=0\nnode=not\n",
    ),
    Refused(
        3,
        8,
        b"node=seq kids=2\nnode=count key=0 least=0\nnode=count key=0 least=0\nnode=seq kids=1\n\
        node=count key=0 least=0\n",
    ),
    // 5: the skill was named on an earlier line.
    Refused(
        5,
        7,
        b"node=seq kids=2\n\
        node=skill skill=1 device=none into=none key=none weight=none\n\
        node=skill skill=1 device=none into=none key=none weight=none\n",
    ),
    Refused(
        5,
        7,
        b"node=seq kids=2\n\
        node=skill skill=0 device=2 into=count key=0 weight=none\n\
        node=skill skill=0 device=3 into=ability key=0 weight=1\n",
    ),
    Refused(
        5,
        9,
        b"node=seq kids=3\n\
        node=skill skill=63 device=none into=none key=none weight=none\n\
        node=skill skill=62 device=none into=none key=none weight=none\n\
        node=not\n\
        node=skill skill=63 device=none into=none key=none weight=none\n",
    ),
    // 6: a key is not below its declared number.
    Refused(6, 5, b"node=count key=1 least=0\n"),
    Refused(6, 5, b"node=ability key=31 least=0 over=1\n"),
    Refused(
        6,
        5,
        b"node=skill skill=0 device=0 into=count key=31 weight=none\n",
    ),
    Refused(
        6,
        5,
        b"node=skill skill=0 device=0 into=ability key=1 weight=1\n",
    ),
    Refused(
        6,
        7,
        b"node=seq kids=2\nnode=count key=0 least=0\nnode=ability key=1 least=0 over=1\n",
    ),
    // 7: need exceeds kids.
    Refused(7, 5, b"node=par kids=1 need=2\nnode=count key=0 least=0\n"),
    Refused(
        7,
        5,
        b"node=par kids=2 need=32\nnode=count key=0 least=0\nnode=count key=0 least=0\n",
    ),
    Refused(
        7,
        7,
        b"node=seq kids=2\nnode=count key=0 least=0\nnode=par kids=2 need=3\n\
        node=count key=0 least=0\nnode=count key=0 least=0\n",
    ),
    // On one line: 3 before 5, 6 and 7, where a place stays open.
    Refused(
        3,
        7,
        b"node=seq kids=3\n\
        node=skill skill=1 device=none into=none key=none weight=none\n\
        node=skill skill=1 device=none into=none key=none weight=none\n",
    ),
    Refused(3, 6, b"node=seq kids=2\nnode=count key=1 least=0\n"),
    Refused(
        3,
        6,
        b"node=seq kids=2\nnode=ability key=1 least=0 over=1\n",
    ),
    Refused(3, 5, b"node=par kids=1 need=2\n"),
    Refused(3, 6, b"node=not\nnode=par kids=1 need=2\n"),
    // On one line: 3 before 5, 6 and 7, where a node finds no open place.
    Refused(
        3,
        6,
        b"node=skill skill=1 device=none into=none key=none weight=none\n\
        node=skill skill=1 device=none into=none key=none weight=none\n",
    ),
    Refused(
        3,
        6,
        b"node=count key=0 least=0\nnode=count key=1 least=0\n",
    ),
    Refused(
        3,
        6,
        b"node=count key=0 least=0\nnode=par kids=1 need=2\nnode=count key=0 least=0\n",
    ),
    // On one line: 5 before 6.
    Refused(
        5,
        7,
        b"node=seq kids=2\n\
        node=skill skill=1 device=none into=none key=none weight=none\n\
        node=skill skill=1 device=none into=count key=1 weight=none\n",
    ),
    Refused(
        5,
        7,
        b"node=seq kids=2\n\
        node=skill skill=1 device=none into=none key=none weight=none\n\
        node=skill skill=1 device=none into=ability key=31 weight=1\n",
    ),
    // The lower line comes first: its 7 before 3, 5, 6 and 7.
    Refused(7, 5, b"node=par kids=2 need=3\nnode=count key=0 least=0\n"),
    Refused(
        7,
        5,
        b"node=par kids=1 need=2\nnode=count key=0 least=0\nnode=count key=0 least=0\n",
    ),
    Refused(
        7,
        5,
        b"node=par kids=2 need=3\n\
        node=skill skill=1 device=none into=none key=none weight=none\n\
        node=skill skill=1 device=none into=none key=none weight=none\n",
    ),
    Refused(7, 5, b"node=par kids=1 need=2\nnode=count key=1 least=0\n"),
    Refused(
        7,
        5,
        b"node=par kids=1 need=2\nnode=par kids=1 need=2\nnode=count key=0 least=0\n",
    ),
    // Its 6 before 3, 5 and 7.
    Refused(
        6,
        6,
        b"node=seq kids=3\nnode=count key=1 least=0\nnode=count key=0 least=0\n",
    ),
    Refused(
        6,
        5,
        b"node=count key=1 least=0\nnode=count key=0 least=0\n",
    ),
    Refused(
        6,
        6,
        b"node=seq kids=2\n\
        node=skill skill=1 device=none into=count key=1 weight=none\n\
        node=skill skill=1 device=none into=none key=none weight=none\n",
    ),
    Refused(
        6,
        6,
        b"node=seq kids=2\nnode=count key=1 least=0\nnode=par kids=1 need=2\n\
        node=count key=0 least=0\n",
    ),
    // Its 5 before 3, 6 and 7.
    Refused(
        5,
        7,
        b"node=seq kids=4\n\
        node=skill skill=1 device=none into=none key=none weight=none\n\
        node=skill skill=1 device=none into=none key=none weight=none\n\
        node=count key=0 least=0\n",
    ),
    Refused(
        5,
        7,
        b"node=seq kids=2\n\
        node=skill skill=1 device=none into=none key=none weight=none\n\
        node=skill skill=1 device=none into=none key=none weight=none\n\
        node=count key=0 least=0\n",
    ),
    Refused(
        5,
        7,
        b"node=seq kids=3\n\
        node=skill skill=1 device=none into=none key=none weight=none\n\
        node=skill skill=1 device=none into=none key=none weight=none\n\
        node=count key=1 least=0\n",
    ),
    Refused(
        5,
        7,
        b"node=seq kids=3\n\
        node=skill skill=1 device=none into=none key=none weight=none\n\
        node=skill skill=1 device=none into=none key=none weight=none\n\
        node=par kids=1 need=2\n\
        node=count key=0 least=0\n",
    ),
    // Its 3, of a node that finds no open place, before 6 and 7.
    Refused(
        3,
        6,
        b"node=count key=0 least=0\nnode=count key=0 least=0\nnode=count key=1 least=0\n",
    ),
    Refused(
        3,
        6,
        b"node=count key=0 least=0\nnode=not\nnode=par kids=1 need=2\nnode=count key=0 least=0\n\
        ",
    ),
    // The text comes before the tree: 1 and 2 of a later line before 3, 5, 6 and 7.
    Refused(
        1,
        7,
        b"node=count key=0 least=0\nnode=count key=0 least=0\nnode=count key=0 least=x\n",
    ),
    Refused(
        2,
        7,
        b"node=count key=0 least=0\nnode=count key=0 least=0\nnode=count key=32 least=0\n",
    ),
    Refused(
        1,
        8,
        b"node=seq kids=3\n\
        node=skill skill=1 device=none into=none key=none weight=none\n\
        node=skill skill=1 device=none into=none key=none weight=none\n\
        node=count key=0\n",
    ),
    Refused(
        2,
        8,
        b"node=seq kids=3\n\
        node=skill skill=1 device=none into=none key=none weight=none\n\
        node=skill skill=1 device=none into=none key=none weight=none\n\
        node=count key=0 least=1000001\n",
    ),
    Refused(
        1,
        7,
        b"node=seq kids=2\nnode=count key=1 least=0\nnode=count  key=0 least=0\n",
    ),
    Refused(
        2,
        7,
        b"node=seq kids=2\nnode=count key=1 least=0\nnode=count key=-1 least=0\n",
    ),
    Refused(1, 6, b"node=par kids=1 need=2\nnode=counts key=0 least=0\n"),
    Refused(
        2,
        6,
        b"node=par kids=1 need=2\nnode=count key=0 least=-1000001\n",
    ),
    // And on the same line 2 before 3, 5, 6 and 7.
    Refused(
        2,
        6,
        b"node=count key=0 least=0\nnode=count key=0 least=1000001\n",
    ),
    Refused(2, 6, b"node=not\nnode=retry times=0\n"),
    Refused(
        2,
        7,
        b"node=seq kids=2\n\
        node=skill skill=1 device=none into=none key=none weight=none\n\
        node=skill skill=1 device=32 into=none key=none weight=none\n",
    ),
    Refused(2, 5, b"node=count key=1 least=1000001\n"),
    Refused(2, 5, b"node=par kids=1 need=33\nnode=count key=0 least=0\n"),
    // The lower line's 2 before a later line's 1, and its 1 before a later line's 2.
    Refused(2, 5, b"node=seq kids=33\nnode=count key=0 least=x\n"),
    Refused(1, 5, b"node=seq kids=x\nnode=count key=32 least=0\n"),
    Refused(2, 6, b"node=not\nnode=count key=32 least=0\nnode=nothing\n"),
    Refused(1, 6, b"node=not\nnode=nothing\nnode=count key=32 least=0\n"),
];

#[test]
fn trees_have_their_verdicts(rt: HostRuntime) -> Result<(), Fail> {
    let tally = judge_nodes(&rt, b"", &TREES)?;
    assert_eq!(rt; tally, [8, 6, 11, 24, 0, 9, 9, 8]);
    Ok(())
}
