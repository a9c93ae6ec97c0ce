// Every refusal of the calls, and that the smallest number is given.
use crate::shared_boards::{board_of, crossing, entry, rules, spot};
use bus::refusal::Refusal;
use frames::can11::Can11;
use frames::equation::Equation;
use planner::board::Board;
use planner::rows::{Margin, Row};
use std::test::Fail;

// The refusal's number, 0 where the call was accepted. By number, since the smallest that applies is given.
fn number<T: Drop>(res: Result<T, Refusal>) -> u8 {
    res.err().map_or(0, |refusal| refusal.number())
}

#[test]
fn place_without_a_board(rt: HostRuntime) -> Result<(), Fail> {
    let mut board: Board<'_, Equation<Can11>> = Board::new(rt.alloc())?;
    assert_eq!(rt; number(board.enter(entry(1, 1, 0, 1))), 4);
    assert_eq!(rt; number(board.enter(entry(0, 1, 0, 1))), 3);
    assert_eq!(rt; number(board.withdraw(1)), 7);
    assert_eq!(rt; number(board.withdraw(65)), 3);
    assert_eq!(rt; number(board.attempt(1)), 8);
    assert_eq!(rt; number(board.attempt(0)), 3);
    assert_eq!(rt; number(board.look(1, 1)), 4);
    assert_eq!(rt; number(board.look(9, 1)), 3);
    assert_eq!(rt; number(board.list(&mut [Row::default(); 1])), 9);
    assert_eq!(rt; number(board.check(&[], &mut [Margin::default(); 1])), 8);
    Ok(())
}

#[test]
fn making(rt: HostRuntime) -> Result<(), Fail> {
    let rules = rules()?;
    let mut board = Board::new(rt.alloc())?;
    assert_eq!(rt; number(board.make(&rules[0..0], 0)), 2);
    assert_eq!(rt; number(board.make(&rules[0..0], 1_000_000_001)), 2);
    assert_eq!(rt; number(board.make(&rules, 1_000_000_001)), 3);
    assert_eq!(rt; number(board.make(&rules, 1_000_000_000)), 0);
    Ok(())
}

#[test]
fn entering_and_withdrawing(rt: HostRuntime) -> Result<(), Fail> {
    let rules = rules()?;
    let mut board = board_of(&rt, &rules)?;
    assert_eq!(rt; number(board.enter(entry(7, 3, 0, 1))), 4, "source");
    assert_eq!(rt; number(board.enter(entry(7, 1, 4, 1))), 4, "destination");
    assert_eq!(rt; number(board.enter(entry(7, 3, 4, 1))), 4, "before 5");
    assert_eq!(rt; number(board.enter(entry(7, 1, 1, 1))), 5);
    assert_eq!(rt; number(board.enter(entry(7, 1, 2, 1))), 0);
    assert_eq!(rt; number(board.enter(entry(7, 1, 2, 1))), 6);
    assert_eq!(rt; number(board.withdraw(8)), 7);
    assert_eq!(rt; number(board.withdraw(7)), 0);
    assert_eq!(rt; number(board.withdraw(7)), 7);
    Ok(())
}

#[test]
fn smaller_number_first(rt: HostRuntime) -> Result<(), Fail> {
    let rules = rules()?;
    let mut board = board_of(&rt, &rules)?;
    board.enter(entry(7, 1, 2, 1_500_000))?;
    assert_eq!(rt; number(board.enter(entry(65, 3, 0, 1))), 3, "3 before 4");
    assert_eq!(rt; number(board.enter(entry(65, 1, 1, 1))), 3, "3 before 5");
    assert_eq!(rt; number(board.enter(entry(7, 1, 2, 0))), 3, "3 before 6");
    assert_eq!(rt; number(board.enter(entry(7, 3, 0, 1))), 4, "4 before 6");
    assert_eq!(rt; number(board.enter(entry(7, 1, 1, 1))), 5, "5 before 6");
    assert_eq!(rt; number(board.look(9, 8)), 3, "3 before 7 and 9");
    assert_eq!(rt; number(board.look(3, 8)), 4, "4 before 7 and 9");
    assert_eq!(rt; number(board.look(2, 8)), 7, "7 before 9");
    board.withdraw(7)?;
    assert_eq!(rt; number(board.attempt(0)), 3, "3 before 8");
    assert_eq!(rt; number(board.attempt(1)), 8);
    assert_eq!(rt;
        number(board.check(&[spot(1, 7)], &mut [Margin::default(); 0])),
        8,
        "8 before 11"
    );
    Ok(())
}

#[test]
fn looking_and_listing(rt: HostRuntime) -> Result<(), Fail> {
    let rules = rules()?;
    let mut board = board_of(&rt, &rules)?;
    crossing(&mut board, 1_500_000)?;
    assert_eq!(rt; number(board.attempt(1_000_001)), 3);
    assert_eq!(rt; number(board.list(&mut [Row::default(); 0])), 9);
    assert_eq!(rt; number(board.look(1, 1)), 9);
    assert_eq!(rt; number(board.look(1, 3)), 7);
    assert_eq!(rt; number(board.look(3, 1)), 4);
    assert_eq!(rt; number(board.attempt(5)), 0);
    assert_eq!(rt; number(board.list(&mut [Row::default(); 3])), 10);
    assert_eq!(rt; number(board.list(&mut [Row::default(); 4])), 0);
    assert_eq!(rt; number(board.look(2, 2)), 0);
    Ok(())
}

#[test]
fn checking(rt: HostRuntime) -> Result<(), Fail> {
    let rules = rules()?;
    let mut board = board_of(&rt, &rules)?;
    crossing(&mut board, 1_500_000)?;
    let first = spot(1, 1);
    assert_eq!(rt;
        number(board.check(&[first], &mut [Margin::default(); 1])),
        10
    );
    assert_eq!(rt;
        number(board.check(&[first], &mut [Margin::default(); 2])),
        11
    );
    assert_eq!(rt;
        number(board.check(&[first; 4], &mut [Margin::default(); 2])),
        11
    );
    Ok(())
}
