// The calls that change a board's messages. Each change sends the walk back to its start.
ghost use Rattle.std.specs.Prelude.{◌≡◌, OnErr};
ghost use Rattle.planner.specs.Logs.{Gives, enter as entering, withdraw as withdrawing};
ghost use Rattle.planner.specs.Views.{standing, changed};

use super::Board;
use bus::entry::Entry;
use bus::refusal::Refusal;
use bus::rule::BusRule;

impl<'a, R: BusRule> Board<'a, R> {
    // Adds a message.
    pub fn enter(&mut self, given: Entry) -> Result<(), Refusal>
        ensures answer { Gives (standing R.BusRule.answer self.old) (entering given) (changed result) (standing R.BusRule.answer self.new) }
        ensures kept { OnErr result (self.new ≡ self.old) }
    {
        let message = self.network.table.admitted(given)?;
        // Lent by itself first: the check does not follow a loan of a field within a field.
        let network = &mut self.network;
        network.table.put(message);
        self.walk.reset();
        Ok(())
    }

    // Removes the message with this number.
    pub fn withdraw(&mut self, number: u64) -> Result<(), Refusal>
        ensures answer { Gives (standing R.BusRule.answer self.old) (withdrawing number) (changed result) (standing R.BusRule.answer self.new) }
        ensures kept { OnErr result (self.new ≡ self.old) }
    {
        let number = self.network.table.to_withdraw(number)?;
        // Lent by itself first, as in enter.
        let network = &mut self.network;
        network.table.take(number);
        self.walk.reset();
        Ok(())
    }
}
