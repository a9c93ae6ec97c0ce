// Which leg a message has on a bus, and which of the legs of a bus is a message's.
ghost use Rattle.std.specs.Prelude.{◌≡◌};
ghost use Rattle.bus.specs.Numbered.{member};
ghost use Rattle.bus.specs.Legs.{leg_on, leg_of};
ghost use Rattle.bus.specs.Rules.{within};

use crate::leg::Leg;
use crate::leg_set::has;
use crate::message::Message;

impl Message {
    // Whether the bus is one of the message's destinations.
    pub fn goes_to(self, bus: u8) -> bool
        ensures { result ≡ member self.destinations bus }
    {
        has(u64::from(self.destinations), bus)
    }

    // The message's leg on a bus.
    pub fn leg_on(self, bus: u8) -> Option<Leg>
        ensures { result ≡ leg_on self bus }
    {
        // Two `if`s, each with a leg of its own: by `then_some` and by `then` it took longer wherever the leg was kept.
        if bus == self.source {
            return Some(Leg {
                message: self,
                source: true,
            });
        }
        if self.goes_to(bus) {
            return Some(Leg {
                message: self,
                source: false,
            });
        }
        None
    }
}

// The leg of the message with this number.
pub fn leg_of(legs: &[Leg], number: u8) -> Option<Leg>
    ensures { result ≡ leg_of legs.now number }
{
    legs.iter()
        .find(|leg| leg.message.number == number)
        .copied()
}

// A leg's delay, or over where it passes the leg's deadline.
pub fn timely(leg: Leg, delay: u64) -> Option<u64>
    ensures { result ≡ within leg.message.deadline delay }
{
    (delay <= leg.message.deadline).then_some(delay)
}
