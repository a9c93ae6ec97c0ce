// The open legs of a bus.
ghost use Rattle.std.specs.Prelude.{◌≡◌, ℕ, not, ◌&&◌, is_some, ◌==◌};
ghost use Rattle.bus.specs.Legs.{leg_on};
ghost use Rattle.bus.specs.Numbered.{member};
ghost use Rattle.search.specs.Net.{has, less};
ghost use Rattle.search.specs.Stored.{unranked};
ghost use Rattle.boards.specs.Nets.{leg_at};
ghost use Rattle.planner.specs.Storage.{ranked_of, open_legs, is_open};

use crate::ranked::Ranked;
use crate::ranks::delay_of;
use crate::table::Table;
use bus::leg_set::LegSet;
use bus::message::Message;

// Whether the message has a leg on the bus that is not ranked.
pub(crate) fn is_open(ranked: &[Ranked], message: Message, bus: u8) -> bool
    ensures { result ≡ (is_some (leg_on message bus) && unranked (ranked_of ranked.now) (leg_at bus message.number)) }
{
    message.leg_on(bus).is_some() && delay_of(ranked, bus, message.number).is_none()
}

// Whether the message is another than that with the number, and its leg on the bus is open.
fn is_other(ranked: &[Ranked], message: Message, bus: u8, number: u8) -> bool
    ensures { result ≡ (not (message.number == number) && is_open ranked.now bus message) }
{
    message.number != number && is_open(ranked, message, bus)
}

impl Table {
    // The open legs of the bus but for that of one message.
    pub(crate) fn others(&self, ranked: &[Ranked], bus: u8, number: u8) -> LegSet
        ensures { (k : ℕ) → member result.bits k ≡ has (leg_at bus k) (less (leg_at bus number) (open_legs self.now.messages.items ranked.now bus)) }
    {
        self.messages
            .iter()
            .filter(|message| is_other(ranked, **message, bus, number))
            .fold(
                LegSet::empty(),
                |set: LegSet, message| set.with(message.number),
            )
    }
}
