// Skill leaves: their ranges, and where `none` stands.
use crate::tests::case::Case::{Accepted, Refused};
use crate::tests::case::{Case, judge_nodes};
use std::test::Fail;

// What follows `node=skill ` on the line.
static SKILLS: [Case; 52] = [
    // Skill leaves.
    Accepted(b"skill=0 device=0 into=none key=none weight=none\n"),
    Accepted(b"skill=63 device=31 into=none key=none weight=none\n"),
    Accepted(b"skill=0 device=none into=none key=none weight=none\n"),
    Accepted(b"skill=0 device=0 into=count key=0 weight=none\n"),
    Accepted(b"skill=0 device=none into=count key=0 weight=none\n"),
    Accepted(b"skill=0 device=0 into=ability key=0 weight=1\n"),
    Accepted(b"skill=0 device=none into=ability key=0 weight=100\n"),
    Refused(2, 5, b"skill=64 device=0 into=none key=none weight=none\n"),
    Refused(2, 5, b"skill=-1 device=0 into=none key=none weight=none\n"),
    Refused(2, 5, b"skill=0 device=32 into=none key=none weight=none\n"),
    Refused(2, 5, b"skill=0 device=-1 into=none key=none weight=none\n"),
    Refused(2, 5, b"skill=0 device=none into=count key=32 weight=none\n"),
    Refused(2, 5, b"skill=0 device=none into=count key=-1 weight=none\n"),
    Refused(2, 5, b"skill=0 device=none into=ability key=32 weight=1\n"),
    Refused(2, 5, b"skill=0 device=none into=ability key=-1 weight=1\n"),
    Refused(2, 5, b"skill=0 device=none into=ability key=0 weight=0\n"),
    Refused(2, 5, b"skill=0 device=none into=ability key=0 weight=101\n"),
    Refused(2, 5, b"skill=0 device=none into=ability key=0 weight=-1\n"),
    // A `none` astray, or lacking.
    Refused(
        1,
        5,
        b"skill=none device=0 into=none key=none weight=none\n",
    ),
    Refused(1, 5, b"skill=0 device=0 into=none key=0 weight=none\n"),
    Refused(1, 5, b"skill=0 device=0 into=none key=none weight=1\n"),
    Refused(1, 5, b"skill=0 device=0 into=none key=0 weight=1\n"),
    Refused(1, 5, b"skill=0 device=none into=none key=0 weight=none\n"),
    Refused(1, 5, b"skill=0 device=0 into=count key=none weight=none\n"),
    Refused(1, 5, b"skill=0 device=0 into=count key=0 weight=1\n"),
    Refused(1, 5, b"skill=0 device=0 into=count key=none weight=1\n"),
    Refused(
        1,
        5,
        b"skill=0 device=none into=count key=none weight=none\n",
    ),
    Refused(1, 5, b"skill=0 device=0 into=ability key=none weight=1\n"),
    Refused(1, 5, b"skill=0 device=0 into=ability key=0 weight=none\n"),
    Refused(
        1,
        5,
        b"skill=0 device=0 into=ability key=none weight=none\n",
    ),
    Refused(
        1,
        5,
        b"skill=0 device=none into=ability key=none weight=none\n",
    ),
    // Other words, and fields that are swapped, missing or too many.
    Refused(1, 5, b"skill=0 device= into=none key=none weight=none\n"),
    Refused(
        1,
        5,
        b"skill=0 device=None into=none key=none weight=none\n",
    ),
    Refused(
        1,
        5,
        b"skill=0 device=nones into=none key=none weight=none\n",
    ),
    Refused(1, 5, b"skill=0 device=00 into=none key=none weight=none\n"),
    Refused(1, 5, b"skill=0 device=-0 into=none key=none weight=none\n"),
    Refused(1, 5, b"skill=0 device=0 into=0 key=none weight=none\n"),
    Refused(1, 5, b"skill=0 device=0 into= key=none weight=none\n"),
    Refused(1, 5, b"skill=0 device=0 into=skill key=0 weight=none\n"),
    Refused(1, 5, b"skill=0 device=0 into=counts key=0 weight=none\n"),
    Refused(1, 5, b"skill=0 device=0 into=count weight=none key=0\n"),
    Refused(1, 5, b"device=0 skill=0 into=none key=none weight=none\n"),
    Refused(1, 5, b"skill=0 into=none key=none weight=none\n"),
    Refused(1, 5, b"skill=0 device=0 into=none key=none\n"),
    Refused(1, 5, b"skill=0 device=0 into=count key=0\n"),
    Refused(1, 5, b"skill=0 device=0 into=none\n"),
    Refused(
        1,
        5,
        b"skill=0 device=0 into=none key=none weight=none over=1\n",
    ),
    Refused(1, 5, b"skill=0 device=0 into=none key=none weight=none \n"),
    // On one line 1 comes before 2, whichever field it is in.
    Refused(1, 5, b"skill=64 device=0 into=none key=0 weight=none\n"),
    Refused(1, 5, b"skill=64 device=32 into=count key=32 weight=1\n"),
    Refused(1, 5, b"skill=0 device=0 into=ability key=32 weight=none\n"),
    // On one line 2 comes before 6.
    Refused(2, 5, b"skill=0 device=32 into=count key=1 weight=none\n"),
];

#[test]
fn skills_have_their_verdicts(rt: HostRuntime) -> Result<(), Fail> {
    let tally = judge_nodes(&rt, b"node=skill ", &SKILLS)?;
    assert_eq!(rt; tally, [7, 33, 12, 0, 0, 0, 0, 0]);
    Ok(())
}
