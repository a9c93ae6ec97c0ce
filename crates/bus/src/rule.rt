// A bus rule: what gives a leg its delay below the legs above it.
ghost use Rattle.std.specs.Prelude.{◌≡◌};
ghost use Rattle.bus.specs.Numbered.{member};
ghost use Rattle.bus.specs.Rules.{Meaning, Bounded, Absent, Shorter};

use crate::leg::Leg;
use crate::leg_set::LegSet;

pub trait BusRule {
    // The rule as a function, fixed when the rule is made.
    ghost answer: { Self → Meaning };

    // The delay of the leg of the message with this number, where the bus has these legs, by rising number, and those of the set are
    // above it; None where it is over. Members of the set that are not other legs of the bus count for nothing.
    fn delay(&self, legs: &[Leg], number: u8, above: LegSet) -> Option<u64>
        ensures { result ≡ answer self.now legs.now number (member above.bits) };

    ghost bounded: { (s : Self) → Bounded (answer s) };

    ghost absent: { (s : Self) → Absent (answer s) };

    ghost shorter: { (s : Self) → Shorter (answer s) };
}
