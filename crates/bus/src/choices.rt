// What a choice answers: what the rule that it holds does.
ghost use Rattle.bus.specs.Numbered.{member};
ghost use Rattle.bus.specs.declared.choice.Choice.TheVariants.{First, Second};

use crate::choice::Choice;
use crate::leg::Leg;
use crate::leg_set::LegSet;
use crate::rule::BusRule;

impl<P: BusRule, Q: BusRule> BusRule for Choice<P, Q> {
    ghost answer = { λ s legs n h. elim s [ First p ↦ P.BusRule.answer p legs n h | Second q ↦ Q.BusRule.answer q legs n h ] };

    ghost bounded = { elim [ First p ↦ P.BusRule.bounded p | Second q ↦ Q.BusRule.bounded q ] };

    ghost absent = { elim [ First p ↦ P.BusRule.absent p | Second q ↦ Q.BusRule.absent q ] };

    ghost shorter = { elim [ First p ↦ P.BusRule.shorter p | Second q ↦ Q.BusRule.shorter q ] };

    fn delay(&self, legs: &[Leg], number: u8, above: LegSet) -> Option<u64> {
        match self {
            Choice::First(rule) => rule.delay(legs, number, above),
            Choice::Second(rule) => rule.delay(legs, number, above),
        }
    }
}
