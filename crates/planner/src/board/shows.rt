// The calls that show the orders found. They leave board and walk as they are.
ghost use Rattle.std.specs.Prelude.{◌≡◌, true, false, length, MatchResult};
ghost use Rattle.bus.specs.declared.refusal.Refusal.TheVariants.{NotFound};
ghost use Rattle.planner.specs.Logs.{Gives, look as looking, list as listing};
ghost use Rattle.planner.specs.Views.{standing, has_found, looks, lists, KeepsRest};

use super::Board;
use crate::found::Found;
use crate::rows::Row;
use crate::stage::Stage;
use bus::refusal::Refusal;
use bus::rule::BusRule;

impl<'a, R: BusRule> Board<'a, R> {
    // Whether the walk has ended with found; a board without messages has no walk that could end.
    fn has_found(&self) -> bool
        ensures { result ≡ has_found self.now }
    {
        !self.network.table.is_empty() && self.walk.stage == Stage::Complete
    }

    // The orders found; NotFound where the walk has not ended with found.
    fn found(&self) -> Result<Found<'_, 'a, R>, Refusal>
        ensures { MatchResult result (λ f. (has_found self.now ≡ true) × (f.network.now ≡ self.now.network) × (f.ranked.now ≡ self.now.walk.ranked.items)) (λ f. (has_found self.now ≡ false) × (f ≡ NotFound)) }
    {
        if !self.has_found() {
            return Err(Refusal::NotFound);
        }
        Ok(Found {
            network: &self.network,
            ranked: &self.walk.ranked,
        })
    }

    // The rank and the delay of a message's leg on a bus, in the orders found.
    pub fn look(&self, bus: u64, message: u64) -> Result<(u8, u64), Refusal>
        ensures { Gives (standing R.BusRule.answer self.now) (looking bus message) (looks result) (standing R.BusRule.answer self.now) }
    {
        let spot = self.network.table.to_look(bus, message)?;
        let row = self.found()?.row_of(spot);
        Ok((row.rank, row.delay))
    }

    // Fills a row for each leg, by bus and then from the highest rank down, and answers their number.
    pub fn list(&self, rows: &mut [Row]) -> Result<usize, Refusal>
        ensures answer { Gives (standing R.BusRule.answer self.now) (listing (length rows.old)) (lists rows.new result) (standing R.BusRule.answer self.now) }
        ensures rest { KeepsRest result rows.old rows.new }
    {
        let found = self.found()?;
        if rows.len() < found.ranked.len() {
            return Err(Refusal::FewRows);
        }
        Ok(found.write_rows(rows))
    }
}
