// What look and list show: the ranked legs as rows, by bus and then from the highest rank down, with their delays.
ghost use Rattle.std.specs.Prelude.{◌≡◌, ℕ, ◌+◌, ◌<◌, ◌≤◌, true, List, [], ◌∷◌, ◌++◌, length, take, drop, is_some, if◌then◌else◌, Some, ◌==◌, nat_eq, slice_set};
ghost use Rattle.bus.specs.Numbered.{member};
ghost use Rattle.bus.specs.Range.{inside, numbers};
ghost use Rattle.search.specs.Net.{Leg};
ghost use Rattle.search.specs.Stored.{orders_of, stored};
ghost use Rattle.boards.specs.Nets.{leg_at};
ghost use Rattle.planner.specs.BusOrders.{order_on, row_below, Sees};
ghost use Rattle.planner.specs.Calls.{row_at, rows_in, rows_of};
ghost use Rattle.planner.specs.Networks.{net_on, rules_of};
ghost use Rattle.planner.specs.Storage.{ranked_of};

use crate::found::Found;
use crate::ranked::Ranked;
use crate::rows::{Row, Spot};
use crate::seen_legs::Seen;
use bus::leg_set::LegSet;
use bus::rule::BusRule;

impl Seen {
    // Before the first leg.
    fn none() -> Seen
        ensures { (bus : ℕ) → Sees bus [] result }
    {
        Seen {
            count: 0,
            above: LegSet::empty(),
        }
    }

    // With one leg more, where it is on the bus.
    fn with(self, leg: Ranked, bus: u8) -> Seen
        requires room { (leg.bus == bus) ≡ true → self.count < 64 }
        requires number { inside numbers leg.message ≡ true }
        ensures { (o : List Leg) → Sees bus o self → Sees bus (if nat_eq leg.bus bus then leg_at bus leg.message ∷ o else o) result }
    {
        if leg.bus != bus {
            return self;
        }
        Seen {
            count: self.count + 1,
            above: self.above.with(leg.message),
        }
    }
}

impl<'b, 'a, R: BusRule> Found<'b, 'a, R> {
    // The row of a message's leg on a bus, below the legs seen.
    fn row_below(&self, bus: u8, message: u8, seen: Seen) -> Row
        ensures { result ≡ row_below (rules_of R.BusRule.answer self.now.network.now) self.now.network.now.table.messages.items bus message seen.count (member seen.above.bits) }
    {
        Row {
            bus,
            rank: seen.count + 1,
            message,
            delay: self.network.delay_on(bus, message, seen.above).unwrap_or(0),
        }
    }

    // Writes the row of a leg behind those of the legs seen, where it is on the bus.
    fn write_leg(&self, leg: Ranked, bus: u8, seen: Seen, rows: &mut [Row], at: usize)
        requires { (leg.bus == bus) ≡ true → at + seen.count < length rows.old }
        ensures { rows.new ≡ (if nat_eq leg.bus bus then slice_set rows.old (at + seen.count) (row_below (rules_of R.BusRule.answer self.now.network.now) self.now.network.now.table.messages.items bus leg.message seen.count (member seen.above.bits)) else rows.old) }
    {
        if leg.bus == bus {
            rows[at + usize::from(seen.count)] = self.row_below(bus, leg.message, seen);
        }
    }

    // Writes the rows of a bus from a place on, and answers the place behind them.
    fn write_bus(&self, bus: u8, rows: &mut [Row], at: usize) -> usize
        requires { at + length (order_on self.now.ranked.now bus) ≤ length rows.old }
        ensures end { result ≡ at + length (order_on self.now.ranked.now bus) }
        ensures rows { rows.new ≡ take at rows.old ++ (rows_in (net_on R.BusRule.answer self.now.network.now) bus (order_on self.now.ranked.now bus) ++ drop result rows.old) }
    {
        // A loop over all ranked legs: through a chain that keeps those of the bus, tried in a method over any rule, the check fails. What it
        // shares with find_row is in Seen and row_below; this one writes, that one searches.
        let mut seen = Seen::none();
        for leg in self.ranked.iter().rev() {
            self.write_leg(*leg, bus, seen, rows, at);
            seen = seen.with(*leg, bus);
        }
        at + usize::from(seen.count)
    }

    // Writes the rows of all ranked legs, and answers how many there are. The rows behind them keep what they have.
    pub(crate) fn write_rows(&self, rows: &mut [Row]) -> usize
        requires { length self.now.ranked.now ≤ length rows.old }
        ensures count { result ≡ length (rows_of (net_on R.BusRule.answer self.now.network.now) (orders_of (net_on R.BusRule.answer self.now.network.now) (ranked_of self.now.ranked.now))) }
        ensures rows { rows.new ≡ rows_of (net_on R.BusRule.answer self.now.network.now) (orders_of (net_on R.BusRule.answer self.now.network.now) (ranked_of self.now.ranked.now)) ++ drop result rows.old }
    {
        // A place that is carried on, since each bus answers where its rows end.
        let mut at: usize = 0;
        for bus in 1..=self.network.table.buses {
            at = self.write_bus(bus, rows, at);
        }
        at
    }

    // The row of a message's leg on a bus; None where it is not ranked.
    fn find_row(&self, spot: Spot) -> Option<Row>
        requires { (1 ≤ spot.bus) × (spot.bus ≤ self.now.network.now.table.buses) }
        ensures { result ≡ row_at spot.bus spot.message (rows_of (net_on R.BusRule.answer self.now.network.now) (orders_of (net_on R.BusRule.answer self.now.network.now) (ranked_of self.now.ranked.now))) }
    {
        // A loop: it counts and gathers while it searches, and a chain would go over the legs twice.
        let mut seen = Seen::none();
        for leg in self.ranked.iter().rev() {
            if leg.is_leg(spot.bus, spot.message) {
                return Some(self.row_below(spot.bus, spot.message, seen));
            }
            seen = seen.with(*leg, spot.bus);
        }
        None
    }

    // The row of a message's leg on a bus, which is ranked.
    pub(crate) fn row_of(&self, spot: Spot) -> Row
        requires bus { (1 ≤ spot.bus) × (spot.bus ≤ self.now.network.now.table.buses) }
        requires ranked { is_some (stored (ranked_of self.now.ranked.now) (leg_at spot.bus spot.message)) ≡ true }
        ensures { row_at spot.bus spot.message (rows_of (net_on R.BusRule.answer self.now.network.now) (orders_of (net_on R.BusRule.answer self.now.network.now) (ranked_of self.now.ranked.now))) ≡ Some result }
    {
        self.find_row(spot).unwrap()
    }
}
