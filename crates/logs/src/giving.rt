// Making one call on a board. Rows are lent from the heap, and cut to those that were filled.
ghost use Rattle.std.specs.Prelude.{◌≡◌, IfOk, OnErr};
ghost use Rattle.planner.specs.Logs.{Gives, list as listing, check as checking};
ghost use Rattle.planner.specs.Views.{standing};
ghost use Rattle.logs.specs.Lines.{call_of, answer_of};

use crate::answer::Answer;
use crate::call::Call;
use bus::rule::BusRule;
use planner::board::Board;
use planner::rows::{Margin, Row, Spot};
use std::alloc::{AllocError, Global};

// Beside give_check: only the lending is alike; the calls and their answers are not. A match, since both cases become an answer.
fn give_list<R: BusRule>(
    heap: Global,
    board: &Board<'_, R>,
    lent: usize,
) -> Result<Answer, AllocError>
    ensures { IfOk result (λ a. Gives (standing R.BusRule.answer board.now) (listing lent) (answer_of a) (standing R.BusRule.answer board.now)) }
{
    let mut rows = vec![in heap; Row::default(); lent]?;
    match board.list(&mut rows) {
        Ok(count) => {
            rows.truncate(count);
            Ok(Answer::Listed(rows))
        }
        Err(refusal) => Ok(Answer::Refused(refusal)),
    }
}

// A match, as in give_list: both cases become an answer, and the accepted one cuts its rows first.
fn give_check<R: BusRule>(
    heap: Global,
    board: &Board<'_, R>,
    orders: &[Spot],
    lent: usize,
) -> Result<Answer, AllocError>
    ensures { IfOk result (λ a. Gives (standing R.BusRule.answer board.now) (checking orders.now lent) (answer_of a) (standing R.BusRule.answer board.now)) }
{
    let mut margins = vec![in heap; Margin::default(); lent]?;
    match board.check(orders, &mut margins) {
        Ok((meets, count)) => {
            margins.truncate(count);
            Ok(Answer::Checked(meets, margins))
        }
        Err(refusal) => Ok(Answer::Refused(refusal)),
    }
}

// Makes the call; where memory is wanting for the rows to lend, it is not made.
pub(crate) fn give<R: BusRule>(
    heap: Global,
    board: &mut Board<'_, R>,
    call: &Call,
) -> Result<Answer, AllocError>
    ensures answer { IfOk result (λ a. Gives (standing R.BusRule.answer board.old) (call_of call.now) (answer_of a) (standing R.BusRule.answer board.new)) }
    ensures kept { OnErr result (board.new ≡ board.old) }
{
    match call {
        Call::Enter(entry) => Ok(board.enter(*entry).into()),
        Call::Withdraw(number) => Ok(board.withdraw(*number).into()),
        Call::Attempt(tries) => Ok(board.attempt(*tries).into()),
        Call::Look(bus, message) => Ok(board.look(*bus, *message).into()),
        Call::List(lent) => give_list(heap, board, *lent),
        Call::Check(orders, lent) => give_check(heap, board, orders, *lent),
    }
}
