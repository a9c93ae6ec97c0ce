// A board: buses behind one gateway, the messages on them, and the walk that looks for orders that meet it.
mod changes;
mod checks;
mod making;
mod shows;
mod walks;

ghost use Rattle.std.specs.Prelude.{◌≡◌, true};
ghost use Rattle.planner.specs.Stages.{stands};

use crate::network::Network;
use crate::walk::Walk;

// A place for a board has no bus until a board is made in it. All memory is reserved when the place is made.
#[derive(Drop)]
pub struct Board<'a, R> {
    network: Network<'a, R>,
    walk: Walk,
    ghost walks: { stands network.table.buses network.table.messages.items walk.ranked.items walk.stage ≡ true },
}
