// The walk of a board, by what is stored of it: the ranked legs and the stage.
ghost use Rattle.std.specs.Prelude.{◌≤◌, vec_capacity};

use crate::ranked::Ranked;
use crate::stage::Stage;

// All memory is reserved when the walk is made.
#[derive(Drop)]
pub(crate) struct Walk {
    // by the time of their ranking, the earliest first: so by bus, and then from the lowest rank up
    pub(crate) ranked: Vec<Ranked>,
    pub(crate) stage: Stage,
    ghost roomy: { 512 ≤ vec_capacity ranked },
}
