// What the walk comes to, in one call and in many.
use crate::shared_boards::{board_of, crossing, entry, row, rules};
use planner::progress::{Progress, Tried};
use planner::rows::Row;
use std::test::Fail;

#[test]
fn found_after_five_tries(rt: HostRuntime) -> Result<(), Fail> {
    let rules = rules()?;
    let mut board = board_of(&rt, &rules)?;
    crossing(&mut board, 1_500_000)?;
    assert_eq!(rt;
        board.attempt(1_000_000)?,
        Tried {
            progress: Progress::Found,
            made: 5
        }
    );
    let mut rows = [Row::default(); 5];
    assert_eq!(rt; board.list(&mut rows)?, 4);
    let expected = [
        row(1, 1, 2, 540_000),
        row(1, 2, 1, 810_000),
        row(2, 1, 1, 540_000),
        row(2, 2, 2, 810_000),
        Row::default(),
    ];
    assert_eq!(rt; rows, expected);
    assert_eq!(rt; board.look(1, 1)?, (2, 810_000));
    Ok(())
}

#[test]
fn single_tries_add_up(rt: HostRuntime) -> Result<(), Fail> {
    let rules = rules()?;
    let mut board = board_of(&rt, &rules)?;
    crossing(&mut board, 1_450_000)?;
    for _ in 0..4 {
        assert_eq!(rt;
            board.attempt(1)?,
            Tried {
                progress: Progress::GoingOn,
                made: 1
            }
        );
    }
    assert_eq!(rt;
        board.attempt(9)?,
        Tried {
            progress: Progress::Found,
            made: 1
        }
    );
    assert_eq!(rt;
        board.attempt(1)?,
        Tried {
            progress: Progress::Found,
            made: 0
        }
    );
    Ok(())
}

#[test]
fn none_one_nanosecond_below(rt: HostRuntime) -> Result<(), Fail> {
    let rules = rules()?;
    let mut board = board_of(&rt, &rules)?;
    crossing(&mut board, 1_449_999)?;
    assert_eq!(rt;
        board.attempt(1_000_000)?,
        Tried {
            progress: Progress::Nothing,
            made: 2
        }
    );
    Ok(())
}

#[test]
fn takes_back_where_it_must(rt: HostRuntime) -> Result<(), Fail> {
    let rules = rules()?;
    let mut board = board_of(&rt, &rules)?;
    board.enter(entry(1, 1, 2, 1_720_000))?;
    board.enter(entry(2, 2, 0, 810_000))?;
    board.enter(entry(3, 1, 2, 1_450_000))?;
    assert_eq!(rt;
        board.attempt(1_000_000)?,
        Tried {
            progress: Progress::Found,
            made: 10
        }
    );
    assert_eq!(rt; board.look(2, 1)?, (3, 1_080_000));
    Ok(())
}

#[test]
fn a_change_begins_anew(rt: HostRuntime) -> Result<(), Fail> {
    let rules = rules()?;
    let mut board = board_of(&rt, &rules)?;
    crossing(&mut board, 1_449_999)?;
    assert_eq!(rt; board.attempt(2)?.progress, Progress::Nothing);
    board.withdraw(2)?;
    assert_eq!(rt;
        board.attempt(2)?,
        Tried {
            progress: Progress::Found,
            made: 2
        }
    );
    Ok(())
}
