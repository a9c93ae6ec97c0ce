// The call that checks orders made by hand. It leaves board and walk as they are.
ghost use Rattle.std.specs.Prelude.{◌≡◌, length};
ghost use Rattle.planner.specs.Logs.{Gives, check as checking};
ghost use Rattle.planner.specs.Views.{standing, checks, KeepsMargins};

use super::Board;
use crate::orders::Orders;
use crate::rows::{Margin, Spot};
use bus::refusal::Refusal;
use bus::rule::BusRule;

impl<'a, R: BusRule> Board<'a, R> {
    // Fills a margin for each local message and each pair, under orders that are given by bus and then from the highest rank down; answers
    // whether they meet the board, and the number of rows.
    pub fn check(&self, orders: &[Spot], margins: &mut [Margin]) -> Result<(bool, usize), Refusal>
        ensures answer { Gives (standing R.BusRule.answer self.now) (checking orders.now (length margins.old)) (checks margins.new result) (standing R.BusRule.answer self.now) }
        ensures rest { KeepsMargins result margins.old margins.new }
    {
        let table = &self.network.table;
        if table.is_empty() {
            return Err(Refusal::NoMessages);
        }
        if margins.len() < table.margin_count() {
            return Err(Refusal::FewRows);
        }
        let orders = Orders::read(&self.network, orders)?;
        Ok(orders.write_margins(margins))
    }
}
