// What the calls without rows answer, as answers of a log.
ghost use Rattle.std.specs.Prelude.{◌≡◌};
ghost use Rattle.planner.specs.Views.{changed, tries, looks};
ghost use Rattle.logs.specs.Lines.{answer_of};

use crate::answer::Answer;
use bus::refusal::Refusal;
use planner::progress::Tried;

// Of an enter or a withdraw.
impl From<Result<(), Refusal>> for Answer {
    ghost from_gives = { λ res answer. answer_of answer ≡ changed res };

    fn from(res: Result<(), Refusal>) -> Answer {
        res.map_or_else(Answer::Refused, |()| Answer::Done)
    }
}

impl From<Result<Tried, Refusal>> for Answer {
    ghost from_gives = { λ res answer. answer_of answer ≡ tries res };

    fn from(res: Result<Tried, Refusal>) -> Answer {
        res.map_or_else(Answer::Refused, Answer::Tried)
    }
}

// Of a look: the rank and the delay.
impl From<Result<(u8, u64), Refusal>> for Answer {
    ghost from_gives = { λ res answer. answer_of answer ≡ looks res };

    fn from(res: Result<(u8, u64), Refusal>) -> Answer {
        res.map_or_else(Answer::Refused, |(rank, delay)| Answer::Looked(rank, delay))
    }
}
