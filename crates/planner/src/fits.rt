// The test whether a leg fits.
ghost use Rattle.std.specs.Prelude.{◌≡◌, ◌+◌, ◌-◌, ◌^◌, ◌<◌, ◌≤◌, ◌&&◌, ◌||◌, Some, ◌==◌, nat_le};
ghost use Rattle.bus.specs.Legs.{legs_on};
ghost use Rattle.bus.specs.Numbered.{member};
ghost use Rattle.std.specs.List.{list_all};
ghost use Rattle.search.specs.Stored.{stored};
ghost use Rattle.search.specs.Walk.{fit_at, passes};
ghost use Rattle.boards.specs.Boards.{message_of, rule_at};
ghost use Rattle.boards.specs.Nets.{leg_at, pairs_of};
ghost use Rattle.planner.specs.Networks.{net_on, rules_of};
ghost use Rattle.planner.specs.Partners.{least_of, partner_bus, passes_to};
ghost use Rattle.planner.specs.Storage.{ranked_of};

use crate::network::Network;
use crate::ranked::Ranked;
use crate::ranks::delay_of;
use bus::leg_set::LegSet;
use bus::message::Message;
use bus::rule::BusRule;

// Whether the message has a pair with this destination, of which its leg on the bus is one end.
fn is_end(message: Message, bus: u8, destination: u8) -> bool
    ensures { result ≡ (member message.destinations destination && (bus == message.source || bus == destination)) }
{
    message.goes_to(destination) && (bus == message.source || bus == destination)
}

// The bus of the other end.
fn partner_bus(message: Message, bus: u8, destination: u8) -> u8
    ensures { result ≡ partner_bus message bus destination }
{
    if bus == message.source {
        destination
    } else {
        message.source
    }
}

// Whether the two delays and the gateway's time are within the deadline.
fn in_time(source: u64, gateway: u64, destination: u64, deadline: u64) -> bool
    requires { deadline < 2 ^ 64 - 1 }
    ensures { result ≡ nat_le (source + gateway + destination) deadline }
{
    source.saturating_add(gateway).saturating_add(destination) <= deadline
}

impl<'a, R: BusRule> Network<'a, R> {
    // The delay that counts for a leg while the other leg of a pair is tested: its own where it is ranked, else the least that it can get,
    // with nothing above it.
    fn least_delay(&self, ranked: &[Ranked], bus: u8, number: u8) -> Option<u64>
        ensures { result ≡ least_of (rules_of R.BusRule.answer self.now) self.now.table.messages.items (stored (ranked_of ranked.now)) (leg_at bus number) }
    {
        // A match: `or_else` was tried, and in a method over any rule the proof does not learn what its closure returns.
        match delay_of(ranked, bus, number) {
            Some(delay) => Some(delay),
            None => self.delay_on(bus, number, LegSet::empty()),
        }
    }

    // Whether the pair with this destination is in time while the message's leg on the bus has the delay; it passes where it has not that
    // leg.
    fn pair_passes(
        &self,
        ranked: &[Ranked],
        message: Message,
        bus: u8,
        delay: u64,
        destination: u8,
    ) -> bool
        ensures { result ≡ passes_to (net_on R.BusRule.answer self.now) (stored (ranked_of ranked.now)) message bus delay destination }
    {
        if !is_end(message, bus, destination) {
            return true;
        }
        let partner = partner_bus(message, bus, destination);
        // Where the other leg can have no delay, this one does not fit. A `let else`: through `is_some_and` the proof did not close.
        let Some(least) = self.least_delay(ranked, partner, message.number) else {
            return false;
        };
        in_time(delay, self.gateway, least, message.deadline)
    }

    // Whether the pairs of the message's leg on the bus are in time while it has the delay.
    fn pairs_pass(&self, ranked: &[Ranked], message: Message, bus: u8, delay: u64) -> bool
        ensures { result ≡ list_all (passes (net_on R.BusRule.answer self.now) (stored (ranked_of ranked.now)) (leg_at bus message.number) delay) (pairs_of message) }
    {
        (1..=8).all(|destination| self.pair_passes(ranked, message, bus, delay, destination))
    }

    // The delay with which the message's leg on the bus fits below the legs of the set; None where it does not fit.
    pub(crate) fn fits(
        &self,
        ranked: &[Ranked],
        message: Message,
        bus: u8,
        above: LegSet,
    ) -> Option<u64>
        requires { message_of self.now.table.messages.items message.number ≡ Some message }
        ensures { result ≡ fit_at (net_on R.BusRule.answer self.now) (stored (ranked_of ranked.now)) (leg_at bus message.number) (rule_at (rules_of R.BusRule.answer self.now) bus (legs_on self.now.table.messages.items bus) message.number (member above.bits)) }
    {
        let delay = self.delay_on(bus, message.number, above)?;
        self.pairs_pass(ranked, message, bus, delay)
            .then_some(delay)
    }
}
