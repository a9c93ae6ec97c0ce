// How far the walk has come.
ghost use Rattle.std.specs.Prelude.{◌≡◌, Some};
ghost use Rattle.planner.specs.Stages.{progress_by, progress_said};

use crate::stage::Stage;
use std::fmt;

#[derive(Clone, Copy, PartialEq, Eq, Debug)]
pub enum Progress {
    // it has ended with orders that meet the board
    Found,
    // it has ended, and no orders meet the board
    Nothing,
    GoingOn,
}

impl fmt::Display for Progress {
    ghost output = { λ progress. Some (progress_said progress) };

    fn fmt<W: fmt::Write>(&self, f: &mut fmt::Formatter<W>) -> fmt::Result {
        f.write_str(match self {
            Progress::Found => "found",
            Progress::Nothing => "none",
            Progress::GoingOn => "going on",
        })
    }
}

impl From<Stage> for Progress {
    ghost from_gives = { λ stage progress. progress ≡ progress_by stage };

    fn from(stage: Stage) -> Progress {
        match stage {
            Stage::Start => Progress::GoingOn,
            Stage::Testing(_) => Progress::GoingOn,
            Stage::Complete => Progress::Found,
            Stage::Exhausted => Progress::Nothing,
        }
    }
}

// What a try call answers: how far the walk has come, and the tries made in this call.
#[derive(Clone, Copy, PartialEq, Eq, Debug)]
pub struct Tried {
    pub progress: Progress,
    pub made: u64,
}
