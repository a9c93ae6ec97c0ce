// The orders found: the ranked legs of a walk that has ended with found.
ghost use Rattle.std.specs.Prelude.{◌≡◌, true, map};
ghost use Rattle.search.specs.Stored.{distinct};
ghost use Rattle.planner.specs.BusOrders.{are_legs, leg_of_rank};

use crate::network::Network;
use crate::ranked::Ranked;

#[derive(Drop)]
pub(crate) struct Found<'b, 'a, R> {
    pub(crate) network: &'b Network<'a, R>,
    pub(crate) ranked: &'b [Ranked],
    ghost legs: { are_legs network.now.table.messages.items ranked.now ≡ true },
    ghost once: { distinct (map leg_of_rank ranked.now) ≡ true },
}
