// Orders made by hand that name every leg of a board exactly once, by bus.
ghost use Rattle.std.specs.Prelude.{◌≡◌, true};
ghost use Rattle.planner.specs.Checks.{named};

use crate::network::Network;
use crate::rows::Spot;

#[derive(Drop)]
pub(crate) struct Orders<'b, 'a, R> {
    pub(crate) network: &'b Network<'a, R>,
    // by bus, and then from the highest rank down
    pub(crate) rows: &'b [Spot],
    ghost named: { named network.now.table.buses network.now.table.messages.items rows.now ≡ true },
}
