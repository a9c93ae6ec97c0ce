// The line of a leg, by the equation rule.
ghost use Rattle.std.specs.Prelude.{◌≡◌};
ghost use Rattle.bus.specs.Numbered.{member};
ghost use Rattle.frames.specs.Equation.{equation};

use crate::row::{Delay, Row};
use bus::leg::Leg;
use bus::leg_set::LegSet;
use bus::message::Message;
use bus::rule::BusRule;
use frames::carrier::Carrier;
use frames::equation::Equation;

// The set of all numbers puts every other leg of the bus above the message's, since what is no other leg counts for nothing.
pub(crate) fn row_of<C: Carrier>(rule: &Equation<C>, legs: &[Leg], message: Message) -> Row
    ensures number { result.number ≡ message.number }
    ensures frame { result.frame ≡ C.Carrier.time rule.now.carrier message.payload.bytes }
    ensures highest { result.highest.0 ≡ equation (C.Carrier.time rule.now.carrier) (C.Carrier.bit rule.now.carrier) legs.now message.number (member 0) }
    ensures lowest { result.lowest.0 ≡ equation (C.Carrier.time rule.now.carrier) (C.Carrier.bit rule.now.carrier) legs.now message.number (member 18446744073709551615) }
{
    let none = LegSet { bits: 0 };
    let all = LegSet { bits: u64::MAX };
    Row {
        number: message.number,
        frame: rule.carrier.frame_time(message.payload),
        highest: Delay(rule.delay(legs, message.number, none)),
        lowest: Delay(rule.delay(legs, message.number, all)),
    }
}
