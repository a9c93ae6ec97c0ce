// Whether the rows of check name every leg exactly once, by bus.
ghost use Rattle.std.specs.Prelude.{◌≡◌, not, ◌&&◌};
ghost use Rattle.bus.specs.Numbered.{member};
ghost use Rattle.std.specs.List.{list_all};
ghost use Rattle.search.specs.Net.{has};
ghost use Rattle.boards.specs.Nets.{leg_at, net_legs};
ghost use Rattle.planner.specs.Checks.{by_bus, order_in, is_order, named};

use crate::rows::Spot;
use crate::table::Table;
use bus::leg_set::LegSet;

impl Table {
    // Whether the buses of the rows are buses of the board and do not fall.
    fn by_bus(&self, rows: &[Spot]) -> bool
        ensures { result ≡ by_bus 1 self.now.buses rows.now }
    {
        // Range and order in one chain, which ends at the first row out of turn: a chain for each would go over all rows where the buses fall.
        rows.first()
            .is_none_or(|row| (1..=self.buses).contains(&row.bus))
            && rows.is_sorted_by(|row, next| (row.bus..=self.buses).contains(&next.bus))
    }

    // Whether the message with this number has a leg on the bus that is not yet seen.
    fn is_new(&self, bus: u8, seen: LegSet, number: u8) -> bool
        ensures { result ≡ (not (member seen.bits number) && has (leg_at bus number) (net_legs self.now.messages.items bus)) }
    {
        !seen.contains(number) && self.has_leg_on(bus, number)
    }

    // Whether every leg of the bus is seen.
    fn all_seen(&self, bus: u8, seen: LegSet) -> bool
        ensures { result ≡ list_all (λ x. member seen.bits x.message) (net_legs self.now.messages.items bus) }
    {
        self.messages.iter().all(|message| message.leg_on(bus).is_none()
            || seen.contains(message.number))
    }

    // Whether the rows of the bus name each of its legs exactly once, and no other leg.
    fn is_order(&self, rows: &[Spot], bus: u8) -> bool
        ensures { result ≡ is_order (order_in rows.now bus) (net_legs self.now.messages.items bus) }
    {
        // A loop: each row is held to all that are seen before, and a chain would have to carry them.
        let mut seen = LegSet::empty();
        for row in rows {
            if row.bus == bus {
                if !self.is_new(bus, seen, row.message) {
                    return false;
                }
                seen = seen.with(row.message);
            }
        }
        self.all_seen(bus, seen)
    }

    // Whether the rows name every leg of the board exactly once, by bus.
    pub(crate) fn names_legs(&self, rows: &[Spot]) -> bool
        ensures { result ≡ named self.now.buses self.now.messages.items rows.now }
    {
        self.by_bus(rows) && (1..=self.buses).all(|bus| self.is_order(rows, bus))
    }
}
