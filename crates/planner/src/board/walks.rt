// The call that advances the walk.
ghost use Rattle.std.specs.Prelude.{◌≡◌, OnErr};
ghost use Rattle.planner.specs.Logs.{Gives, attempt as attempting};
ghost use Rattle.planner.specs.Views.{standing, tries};

use super::Board;
use crate::progress::Tried;
use bus::refusal::Refusal;
use bus::rule::BusRule;

impl<'a, R: BusRule> Board<'a, R> {
    // Makes so many tries, from 1 to 1,000,000, and fewer only where the walk ends.
    pub fn attempt(&mut self, count: u64) -> Result<Tried, Refusal>
        ensures answer { Gives (standing R.BusRule.answer self.old) (attempting count) (tries result) (standing R.BusRule.answer self.new) }
        ensures kept { OnErr result (self.new ≡ self.old) }
    {
        let count = self.network.table.to_try(count)?;
        let made = self.walk.run(&self.network, count);
        Ok(Tried {
            progress: self.walk.progress(),
            made,
        })
    }
}
