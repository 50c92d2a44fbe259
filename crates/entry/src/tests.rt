use crate::entry_fault::EntryFault;
use crate::kind::Entry;
use crate::parts::{Ability, AbilityThreshold, Count, CountThreshold, Mark, Weighed, Weight};
use fault::refusal::Refusal;
use std::test::Fail;

// What a count holds once it has taken a mark, or `None` where it is full.
fn taken(count: i32, mark: i32) -> Result<Option<i32>, EntryFault> {
    let next = Count::new(count)?.take(Mark::new(mark)?);
    Ok(next.map(|count| count.value()))
}

#[test]
fn counts_fill_upwards(rt: HostRuntime) -> Result<(), Fail> {
    assert_eq!(rt; taken(999_999, 1)?, Some(1_000_000));
    assert_eq!(rt; taken(999_999, 2)?, None);
    assert_eq!(rt; taken(1_000_000, -100)?, Some(999_900));
    Ok(())
}

#[test]
fn counts_fill_downwards(rt: HostRuntime) -> Result<(), Fail> {
    assert_eq!(rt; taken(-999_999, -1)?, Some(-1_000_000));
    assert_eq!(rt; taken(-999_999, -2)?, None);
    assert_eq!(rt; taken(-1_000_000, -1)?, None);
    assert_eq!(rt; taken(-1_000_000, 1)?, Some(-999_999));
    Ok(())
}

fn weighed(mark: i32, weight: u8) -> Result<Weighed, EntryFault> {
    Ok(Weighed {
        mark: Mark::new(mark)?,
        weight: Weight::new(weight)?,
    })
}

// What an ability holds once it has taken a weighed mark, or `None` where it is full.
fn grown(marks: i32, weight: u32, share: Weighed) -> Result<Option<(i32, u32)>, EntryFault> {
    let next = Ability::new(marks, weight)?.take(share);
    Ok(next.map(|ability| (ability.marks(), ability.weight())))
}

#[test]
fn abilities_fill_by_weight(rt: HostRuntime) -> Result<(), Fail> {
    assert_eq!(rt;
        grown(-99_999_900, 999_999, weighed(-100, 1)?)?,
        Some((-100_000_000, 1_000_000))
    );
    assert_eq!(rt; grown(-99_999_900, 999_999, weighed(100, 2)?)?, None);
    assert_eq!(rt; grown(0, 1_000_000, weighed(0, 1)?)?, None);
    Ok(())
}

#[test]
fn a_first_mark_makes_the_entry(rt: HostRuntime) -> Result<(), Fail> {
    assert_eq!(rt; Count::first(Mark::new(-100)?).value(), -100);
    let ability = Ability::first(weighed(-7, 100)?);
    assert_eq!(rt; ability.marks(), -700);
    assert_eq!(rt; ability.weight(), 100);
    Ok(())
}

fn count_meets(count: i32, least: i32) -> Result<bool, EntryFault> {
    Ok(Count::new(count)?.meets(CountThreshold::new(least)?))
}

fn ability_meets(marks: i32, weight: u32, least: i32, over: u8) -> Result<bool, EntryFault> {
    Ok(Ability::new(marks, weight)?.meets(AbilityThreshold::new(least, over)?))
}

#[test]
fn counts_meet_at_the_corners(rt: HostRuntime) -> Result<(), Fail> {
    assert!(rt; count_meets(1_000_000, 1_000_000)?);
    assert!(rt; !count_meets(999_999, 1_000_000)?);
    assert!(rt; count_meets(-1_000_000, -1_000_000)?);
    assert!(rt; !count_meets(-1_000_000, -999_999)?);
    Ok(())
}

#[test]
fn abilities_meet_at_the_corners(rt: HostRuntime) -> Result<(), Fail> {
    assert!(rt; ability_meets(100_000_000, 1_000_000, 10_000, 100)?);
    assert!(rt; !ability_meets(99_999_999, 1_000_000, 10_000, 100)?);
    assert!(rt; !ability_meets(100_000_000, 1_000_000, 10_000, 1)?);
    assert!(rt; ability_meets(-100_000_000, 1_000_000, -10_000, 1)?);
    assert!(rt; ability_meets(-100_000_000, 1_000_000, -10_000, 100)?);
    assert!(rt; !ability_meets(-100_000_000, 1_000_000, -9_999, 100)?);
    Ok(())
}

#[test]
fn below_zero_the_sign_holds(rt: HostRuntime) -> Result<(), Fail> {
    assert!(rt; ability_meets(-6, 2, -3, 1)?);
    assert!(rt; !ability_meets(-6, 2, -1, 2)?);
    Ok(())
}

#[test]
fn numbers_out_of_range_are_refused(rt: HostRuntime) {
    assert!(rt; Mark::new(101).is_err() && Mark::new(-101).is_err());
    assert!(rt; Count::new(1_000_001).is_err() && Count::new(-1_000_001).is_err());
    assert!(rt; Ability::new(0, 0).is_err() && Ability::new(0, 1_000_001).is_err());
    assert!(rt; Ability::new(201, 2).is_err() && Ability::new(-201, 2).is_err());
    assert!(rt;
        CountThreshold::new(1_000_001).is_err() && CountThreshold::new(-1_000_001).is_err()
    );
    assert!(rt;
        AbilityThreshold::new(10_001, 1).is_err() && AbilityThreshold::new(-10_001, 1).is_err()
    );
    assert!(rt; AbilityThreshold::new(0, 0).is_err() && AbilityThreshold::new(0, 101).is_err());
    assert_eq!(rt; EntryFault::OutOfRange.number(), 2);
}
