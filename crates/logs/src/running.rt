// The call that runs a list of calls on a board that it makes anew.
ghost use Rattle.std.specs.Prelude.{◌≡◌, ◌≤◌, false, [], map, length, vec_capacity, OnOk};
ghost use Rattle.boards.specs.Boards.{board_of};
ghost use Rattle.planner.specs.Refusing.{make_fault};
ghost use Rattle.planner.specs.Standing.{fresh};
ghost use Rattle.planner.specs.Views.{standing};
ghost use Rattle.logs.specs.Law.{LogKept};
ghost use Rattle.logs.specs.Lines.{log_of, Leads};
ghost use Rattle.logs.specs.Faults.{making_fault, WhereMade, WhereRefused};

use crate::answer::Answer;
use crate::call::Call;
use crate::giving::give;
use crate::log_fault::LogFault;
use bus::rule::BusRule;
use planner::board::Board;
use std::alloc::{AllocError, Global};

// Makes the calls one after another, until memory is wanting for the rows of one.
fn give_all<R: BusRule>(
    heap: Global,
    board: &mut Board<'_, R>,
    calls: &[Call],
    answers: &mut Vec<Answer>,
) -> Result<(), AllocError>
    requires empty { answers.old.items ≡ [] }
    requires room { length calls.now ≤ vec_capacity answers.old }
    ensures leads { Leads (standing R.BusRule.answer board.old) (log_of calls.now answers.new.items) (standing R.BusRule.answer board.new) }
    ensures few { length answers.new.items ≤ length calls.now }
    ensures all { OnOk result (length answers.new.items ≡ length calls.now) }
{
    for call in calls {
        let answer = give(heap, board, call)?;
        answers.push_reserved(answer);
    }
    Ok(())
}

// Makes the board anew and then the calls on it, one after another, and answers what each of them answered. A refused making leaves all as
// it was. Where memory is wanting it stops before the call that wants it, with the answers of those that were made.
pub fn run_log<'a, R: BusRule>(
    heap: Global,
    board: &mut Board<'a, R>,
    rules: &'a [R],
    gateway: u64,
    calls: &[Call],
    answers: &mut Vec<Answer>,
) -> Result<(), LogFault>
    ensures making { making_fault result ≡ make_fault (length rules.now) gateway }
    ensures kept { WhereRefused result ((board.new ≡ board.old) × (answers.new ≡ answers.old)) }
    ensures law { WhereMade result (LogKept (map R.BusRule.answer rules.now) gateway [] 0 false (log_of calls.now answers.new.items)) }
    ensures leads { WhereMade result (Leads (fresh (board_of (map R.BusRule.answer rules.now) gateway [])) (log_of calls.now answers.new.items) (standing R.BusRule.answer board.new)) }
    ensures few { WhereMade result (length answers.new.items ≤ length calls.now) }
    ensures all { OnOk result (length answers.new.items ≡ length calls.now) }
{
    board.make(rules, gateway)?;
    answers.clear();
    answers.reserve(calls.len())?;
    give_all(heap, board, calls, answers)?;
    Ok(())
}
