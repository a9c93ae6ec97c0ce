// What a bridge answers.
ghost use Rattle.std.specs.Prelude.{◌≡◌, true, false, MatchResult};
ghost use Rattle.bus.specs.Bridges.{bridged};
ghost use Rattle.bus.specs.Numbered.{member};
ghost use Rattle.bus.specs.Range.{inside, bridge_times};
ghost use Rattle.bus.specs.declared.refusal.Refusal.TheVariants.{Range};
ghost use Rattle.bus.specs.Bridged.{bridged-bounded, bridged-absent, bridged-shorter};

use crate::bridge::Bridge;
use crate::leg::Leg;
use crate::leg_set::LegSet;
use crate::legs::{leg_of, timely};
use crate::refusal::Refusal;
use crate::rule::BusRule;

impl<R: BusRule + Drop> Bridge<R> {
    // The bridge that adds this time, from 0 to a second; Range above that.
    pub fn new(inner: R, extra: u64) -> Result<Bridge<R>, Refusal>
        ensures { MatchResult result (λ b. (inside bridge_times extra ≡ true) × (b.inner ≡ inner) × (b.extra ≡ extra)) (λ f. (inside bridge_times extra ≡ false) × (f ≡ Range)) }
    {
        if extra > 1_000_000_000 {
            return Err(Refusal::Range);
        }
        Ok(Bridge { inner, extra })
    }
}

impl<R: BusRule> BusRule for Bridge<R> {
    ghost answer = { λ s. bridged s.extra (R.BusRule.answer s.inner) };

    ghost bounded = { λ s. bridged-bounded s.extra (R.BusRule.answer s.inner) };

    ghost absent = { λ s. bridged-absent s.extra (R.BusRule.answer s.inner) };

    ghost shorter = { λ s. bridged-shorter s.extra (R.BusRule.answer s.inner) (R.BusRule.shorter s.inner) };

    fn delay(&self, legs: &[Leg], number: u8, above: LegSet) -> Option<u64> {
        let leg = leg_of(legs, number)?;
        let delay = self.inner.delay(legs, number, above)?;
        timely(leg, delay.saturating_add(self.extra))
    }
}
