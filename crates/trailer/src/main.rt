// Plans a trailer with two buses through the calls of a board, and tells in print what each call answered.
#![tactic(auto)]

mod prints;

use anyhow::Context;
use bus::entry::Entry;
use frames::can11::Can11;
use frames::equation::Equation;
use planner::board::Board;
use planner::progress::Progress;
use prints::{print_margins, print_rows};

// The board of this program: both buses are classic, by the equation rule.
pub(crate) type Trailer<'a> = Board<'a, Equation<Can11>>;

// Two messages of 8 bytes that cross from bus 1 to bus 2 every 10 ms, with this deadline.
fn enter_both(board: &mut Trailer<'_>, deadline: u64) -> anyhow::Result<()> {
    for number in 1..=2 {
        board.enter(Entry {
            number,
            source: 1,
            destinations: 2,
            payload: 8,
            period: 10_000_000,
            deadline,
            jitter: 0,
        })?;
    }
    Ok(())
}

// Tries one leg at a time until the walk ends, at most a hundred times, and answers how many tries were made.
fn walk(rt: &HostRuntime, board: &mut Trailer<'_>) -> anyhow::Result<u64> {
    let mut sum: u64 = 0;
    for _ in 0..100 {
        let tried = board.attempt(1)?;
        sum = sum.saturating_add(tried.made);
        println!(rt; "try {sum}: {}", tried.progress)?;
        if tried.progress != Progress::GoingOn {
            break;
        }
    }
    Ok(sum)
}

fn run(rt: &HostRuntime) -> anyhow::Result<()> {
    let first = Can11::new(2000).context("the bit time of bus 1 is out of range")?;
    let second = Can11::new(2000).context("the bit time of bus 2 is out of range")?;
    let rules = [Equation { carrier: first }, Equation { carrier: second }];
    let mut board = Board::new(rt.alloc())?;
    board.make(&rules, 100_000)?;
    println!(rt; "deadlines 1500000")?;
    enter_both(&mut board, 1_500_000)?;
    let _ = walk(rt, &mut board)?;
    print_rows(rt, &board)?;
    print_margins(rt, &board)?;
    board.withdraw(1)?;
    board.withdraw(2)?;
    println!(rt; "deadlines 1449999")?;
    enter_both(&mut board, 1_449_999)?;
    let tries = walk(rt, &mut board)?;
    println!(rt; "ended after {tries} tries")?;
    Ok(())
}

fn main(rt: HostRuntime) -> anyhow::Result<()> {
    run(&rt)
}
