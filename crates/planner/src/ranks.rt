// Reading the ranked legs: the delay with which a leg is ranked, whether a leg is ready. Bus and number are given apart here and elsewhere,
// and not as a Spot: most callers hold one of them fixed, and would make a Spot for each call. Nor are the ranked legs, a message
// and a bus one value: the first are the walk's, the second the table's, and the third goes through the buses.
ghost use Rattle.std.specs.Prelude.{◌≡◌};
ghost use Rattle.std.specs.List.{list_all};
ghost use Rattle.search.specs.Stored.{stored};
ghost use Rattle.search.specs.Walk.{known, partnered};
ghost use Rattle.boards.specs.Nets.{leg_at, pair_to, pairs_of};
ghost use Rattle.planner.specs.Storage.{ranked_of};

use crate::ranked::Ranked;
use bus::message::Message;

// The delay with which a leg is ranked; None while it is open.
pub(crate) fn delay_of(ranked: &[Ranked], bus: u8, message: u8) -> Option<u64>
    ensures { result ≡ stored (ranked_of ranked.now) (leg_at bus message) }
{
    ranked
        .iter()
        .rev()
        .find(|leg| leg.is_leg(bus, message))
        .map(|leg| leg.delay)
}

// Whether the message's leg on `other` is ranked, or is the one on `bus`.
fn is_known(ranked: &[Ranked], message: u8, bus: u8, other: u8) -> bool
    ensures { result ≡ known (stored (ranked_of ranked.now)) (leg_at bus message) (leg_at other message) }
{
    bus == other || delay_of(ranked, other, message).is_some()
}

// Whether the partner of the message's leg on `bus` is ranked, in the pair with this destination.
fn is_partnered(ranked: &[Ranked], message: Message, bus: u8, destination: u8) -> bool
    ensures { result ≡ partnered (stored (ranked_of ranked.now)) (leg_at bus message.number) (pair_to message destination) }
{
    if bus != message.source && bus != destination {
        return true;
    }
    is_known(ranked, message.number, bus, message.source)
        && is_known(ranked, message.number, bus, destination)
}

// Whether the partner of the message's leg on `bus` is ranked, in each of its pairs.
pub(crate) fn is_ready(ranked: &[Ranked], message: Message, bus: u8) -> bool
    ensures { result ≡ list_all (partnered (stored (ranked_of ranked.now)) (leg_at bus message.number)) (pairs_of message) }
{
    (1..=8).all(|destination| {
        !message.goes_to(destination) || is_partnered(ranked, message, bus, destination)
    })
}
