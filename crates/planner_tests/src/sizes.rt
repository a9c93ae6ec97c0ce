// Boards of the largest size, tries in pieces, and a board made anew.
use crate::shared_boards::{board_of, entry, rules};
use frames::can11::Can11;
use frames::equation::Equation;
use planner::board::Board;
use planner::progress::Progress;
use planner::rows::Row;
use std::process::Abort;
use std::test::Fail;

// The walk of ten tries, so many at a time.
fn in_pieces(rt: &(impl Abort + AllocGlobal), piece: u64) -> Result<u64, Fail> {
    let rules = rules()?;
    let mut board = board_of(rt, &rules)?;
    board.enter(entry(1, 1, 2, 1_720_000))?;
    board.enter(entry(2, 2, 0, 810_000))?;
    board.enter(entry(3, 1, 2, 1_450_000))?;
    let mut sum: u64 = 0;
    for _ in 0..20 {
        sum = sum.saturating_add(board.attempt(piece)?.made);
    }
    assert_eq!(rt; board.attempt(piece)?.progress, Progress::Found);
    Ok(sum)
}

#[test]
fn pieces_come_to_the_same(rt: HostRuntime) -> Result<(), Fail> {
    for piece in [1, 2, 3, 7, 1_000_000] {
        assert_eq!(rt; in_pieces(&rt, piece)?, 10);
    }
    Ok(())
}

#[test]
fn sixty_four_messages(rt: HostRuntime) -> Result<(), Fail> {
    let rules = rules()?;
    let mut board = Board::new(rt.alloc())?;
    board.make(&rules, 0)?;
    for number in (1..=64).rev() {
        board.enter(entry(number, 1, 0, 10_000_000))?;
    }
    assert!(rt; board.enter(entry(1, 2, 0, 10_000_000)).is_err());
    let tried = board.attempt(1_000_000)?;
    assert_eq!(rt;
        tried.progress,
        Progress::Nothing,
        "the load of 64 frames passes ten milliseconds"
    );
    assert_eq!(rt; tried.made, 64);
    Ok(())
}

#[test]
fn eight_buses_and_seven_destinations(rt: HostRuntime) -> Result<(), Fail> {
    let carrier = Can11::new(2000)?;
    let rules = [Equation { carrier }; 8];
    let mut board = Board::new(rt.alloc())?;
    board.make(&rules, 1000)?;
    board.enter(entry(64, 1, 254, 1_081_000))?;
    board.enter(entry(1, 8, 0, 10_000_000))?;
    let tried = board.attempt(1_000_000)?;
    assert_eq!(rt; tried.progress, Progress::Found);
    let mut rows = [Row::default(); 9];
    assert_eq!(rt; board.list(&mut rows)?, 9);
    assert_eq!(rt; board.look(8, 64)?, (1, 540_000));
    Ok(())
}

#[test]
fn a_board_made_anew(rt: HostRuntime) -> Result<(), Fail> {
    let rules = rules()?;
    let mut board = board_of(&rt, &rules)?;
    board.enter(entry(1, 1, 2, 1_500_000))?;
    assert_eq!(rt; board.attempt(9)?.progress, Progress::Found);
    board.make(&rules, 0)?;
    assert!(rt; board.attempt(9).is_err(), "no messages");
    assert!(rt; board.list(&mut [Row::default(); 9]).is_err(), "not found");
    board.enter(entry(1, 1, 2, 1_500_000))?;
    assert_eq!(rt; board.attempt(9)?.made, 2);
    Ok(())
}
