// Whole lists of calls, and what each of them answers.
use crate::shared_boards::{entry, margin, row, rules, spot};
use bus::refusal::Refusal;
use frames::can11::Can11;
use frames::equation::Equation;
use logs::answer::Answer;
use logs::call::Call;
use logs::log_fault::LogFault;
use logs::running::run_log;
use planner::board::Board;
use planner::progress::{Progress, Tried};
use std::test::Fail;

fn tried(progress: Progress, made: u64) -> Answer {
    Answer::Tried(Tried { progress, made })
}

// What the calls answer on a board of two buses.
fn answers_to(rt: &HostRuntime, calls: &[Call]) -> Result<Vec<Answer>, Fail> {
    let rules = rules()?;
    let mut board = Board::new(rt.alloc())?;
    let mut answers = Vec::new(rt.alloc());
    run_log(rt.alloc(), &mut board, &rules, 100_000, calls, &mut answers)?;
    Ok(answers)
}

#[test]
fn single_tries_then_a_list(rt: HostRuntime) -> Result<(), Fail> {
    let calls = [
        Call::Enter(entry(1, 1, 2, 1_500_000)),
        Call::Enter(entry(2, 1, 2, 1_500_000)),
        Call::Attempt(1),
        Call::Attempt(1),
        Call::List(4),
        Call::Attempt(1),
        Call::Attempt(1),
        Call::Attempt(1),
        Call::List(5),
    ];
    let rows = vec![in rt.alloc();
        row(1, 1, 2, 540_000),
        row(1, 2, 1, 810_000),
        row(2, 1, 1, 540_000),
        row(2, 2, 2, 810_000),
    ]?;
    let expected = vec![in rt.alloc();
        Answer::Done,
        Answer::Done,
        tried(Progress::GoingOn, 1),
        tried(Progress::GoingOn, 1),
        Answer::Refused(Refusal::NotFound),
        tried(Progress::GoingOn, 1),
        tried(Progress::GoingOn, 1),
        tried(Progress::Found, 1),
        Answer::Listed(rows),
    ]?;
    assert_eq!(rt; answers_to(&rt, &calls)?, expected);
    Ok(())
}

#[test]
fn a_change_in_between(rt: HostRuntime) -> Result<(), Fail> {
    let calls = [
        Call::Enter(entry(1, 1, 2, 1_449_999)),
        Call::Enter(entry(2, 1, 2, 1_449_999)),
        Call::Enter(entry(2, 1, 2, 1_449_999)),
        Call::Attempt(9),
        Call::Withdraw(2),
        Call::Attempt(9),
        Call::Look(2, 1),
        Call::List(1),
    ];
    let expected = vec![in rt.alloc();
        Answer::Done,
        Answer::Done,
        Answer::Refused(Refusal::Taken),
        tried(Progress::Nothing, 2),
        Answer::Done,
        tried(Progress::Found, 2),
        Answer::Looked(1, 540_000),
        Answer::Refused(Refusal::FewRows),
    ]?;
    assert_eq!(rt; answers_to(&rt, &calls)?, expected);
    Ok(())
}

#[test]
fn orders_made_by_hand(rt: HostRuntime) -> Result<(), Fail> {
    let each = vec![in rt.alloc(); spot(1, 2), spot(1, 1), spot(2, 1), spot(2, 2)]?;
    let few = vec![in rt.alloc(); spot(1, 2)]?;
    let calls = [
        Call::Enter(entry(1, 1, 2, 1_500_000)),
        Call::Enter(entry(2, 1, 2, 1_500_000)),
        Call::Check(each, 3),
        Call::Check(few, 3),
    ];
    let margins = vec![in rt.alloc(); margin(1, 2, 50_000), margin(2, 2, 50_000)]?;
    let expected = vec![in rt.alloc();
        Answer::Done,
        Answer::Done,
        Answer::Checked(true, margins),
        Answer::Refused(Refusal::WrongRows),
    ]?;
    assert_eq!(rt; answers_to(&rt, &calls)?, expected);
    Ok(())
}

#[test]
fn a_refused_making(rt: HostRuntime) -> Result<(), Fail> {
    let rules = rules()?;
    let mut board: Board<'_, Equation<Can11>> = Board::new(rt.alloc())?;
    let mut answers = vec![in rt.alloc(); Answer::Done]?;
    let ran = run_log(
        rt.alloc(),
        &mut board,
        &rules,
        1_000_000_001,
        &[Call::Attempt(1)],
        &mut answers,
    );
    assert_eq!(rt; ran, Err(LogFault::Refused(Refusal::Range)));
    assert_eq!(rt; answers.len(), 1, "as it was");
    Ok(())
}
