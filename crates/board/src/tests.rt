ghost use Rattle.std.specs.Prelude.{◌<◌};

use crate::board_fault::BoardFault;
use crate::boards::Board;
use crate::entering::{Entered, enter, meets};
use crate::parts::{AbilityPairs, Cells, CountCells, CountPairs, Pairs};
use crate::table::Tabled;
use entry::parts::{Ability, Count, CountThreshold, Mark};
use fault::refusal::Refusal;
use std::test::Fail;

// Random numbers: a linear congruential generator.
#[derive(Drop)]
struct Draws {
    state: u32,
}

impl Draws {
    fn draw(&mut self) -> u32 {
        self.state = self
            .state
            .wrapping_mul(1_664_525)
            .wrapping_add(1_013_904_223);
        self.state >> 16
    }
}

fn value(count: Option<Count>) -> Option<i32> {
    count.map(|count| count.value())
}

// Whether cells and pairs of this size answer and read the same over a hundred writes at keys
// below `keys`.
fn run_alike<E: Tabled + PartialEq, F: Fn(u32) -> Result<E, Fail>>(
    size: u8,
    keys: u8,
    seed: u32,
    entry: F,
) -> Result<bool, Fail>
    requires keys { 0 < keys }
    requires entry { F.IsAlwaysCallable entry }
{
    let mut draws = Draws { state: seed };
    let mut cells = Cells::new(size)?;
    let mut pairs = Pairs::new(size)?;
    for _ in 0..100 {
        let key = u8::try_from(draws.draw() % u32::from(keys))?;
        let entry = entry(draws.draw())?;
        if cells.write(key, entry) != pairs.write(key, entry) {
            return Ok(false);
        }
        if (0..keys).any(|k| cells.read(k) != pairs.read(k)) {
            return Ok(false);
        }
    }
    Ok(true)
}

#[test]
fn counts_in_cells_and_pairs_read_the_same(rt: HostRuntime) -> Result<(), Fail> {
    let alike = run_alike(29, 32, 7, |n| {
        Ok(Count::new(i32::try_from(n % 2000)? - 1000)?)
    })?;
    assert!(rt; alike);
    Ok(())
}

#[test]
fn abilities_in_cells_and_pairs_read_the_same(rt: HostRuntime) -> Result<(), Fail> {
    let alike = run_alike(32, 34, 11, |n| Ok(Ability::new(-5, 1 + n % 1000)?))?;
    assert!(rt; alike);
    Ok(())
}

#[test]
fn a_write_sets_one_key(rt: HostRuntime) -> Result<(), Fail> {
    let mut board = CountPairs::new(3)?;
    board.write(2, Count::new(5)?)?;
    board.write(0, Count::new(6)?)?;
    board.write(2, Count::new(7)?)?;
    assert_eq!(rt; value(board.read(0)), Some(6));
    assert_eq!(rt; value(board.read(1)), None);
    assert_eq!(rt; value(board.read(2)), Some(7));
    Ok(())
}

#[test]
fn a_key_at_the_size_is_refused(rt: HostRuntime) -> Result<(), Fail> {
    let mut board = CountCells::new(3)?;
    assert_eq!(rt; board.write(3, Count::new(5)?), Err(BoardFault::Beyond));
    assert_eq!(rt; value(board.read(3)), None);
    assert_eq!(rt; BoardFault::Beyond.number(), 20);
    assert!(rt; CountCells::new(33).is_err() && AbilityPairs::new(33).is_err());
    Ok(())
}

#[test]
fn marks_make_and_grow_and_fill(rt: HostRuntime) -> Result<(), Fail> {
    let mut board = CountPairs::new(2)?;
    let mark = Mark::new(100)?;
    let hundred = CountThreshold::new(100)?;
    assert!(rt; !meets(&board, 1, hundred));
    assert_eq!(rt; enter(&mut board, 1, mark), Ok(Entered::Made));
    assert!(rt; meets(&board, 1, hundred));
    assert_eq!(rt; enter(&mut board, 1, mark), Ok(Entered::Taken));
    assert_eq!(rt; value(board.read(1)), Some(200));
    board.write(1, Count::new(999_901)?)?;
    assert_eq!(rt; enter(&mut board, 1, mark), Ok(Entered::Full));
    assert_eq!(rt; value(board.read(1)), Some(999_901));
    assert_eq!(rt; enter(&mut board, 2, mark), Err(BoardFault::Beyond));
    Ok(())
}
