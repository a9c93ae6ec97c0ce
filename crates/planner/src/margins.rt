// The margins of orders made by hand.
ghost use Rattle.std.specs.Prelude.{◌≡◌, ℕ, ◌≤◌, true, false, not, ◌&&◌, List, map, length, Some, MatchOption, MatchResult};
ghost use Rattle.bus.specs.Numbered.{member};
ghost use Rattle.bus.specs.Range.{inside, numbers};
ghost use Rattle.bus.specs.Rules.{Meaning};
ghost use Rattle.bus.specs.declared.refusal.Refusal.TheVariants.{WrongRows};
ghost use Rattle.search.specs.Deadlines.{delays};
ghost use Rattle.std.specs.List.{list_all};
ghost use Rattle.search.specs.Net.{has};
ghost use Rattle.boards.specs.Boards.{board_of, message_of};
ghost use Rattle.boards.specs.Nets.{leg_at, source_leg, destinations_of};
ghost use Rattle.planner.specs.Checks.{orders_in, named, across, margin_row, margins_of, margin_rows, all_met, below_zero};
ghost use Rattle.planner.specs.Logs.{margin_count};
ghost use Rattle.planner.specs.Networks.{board_on, net_on};
ghost use Rattle.planner.specs.Spots.{down_in, ahead, AtMost, rows_for, pair_row, Written};

use crate::network::Network;
use crate::orders::Orders;
use crate::rows::{Margin, Spot};
use crate::table::Table;
use bus::leg_set::LegSet;
use bus::message::Message;
use bus::refusal::Refusal;
use bus::rule::BusRule;

// How many rows the margins of a message take, whatever the orders.
fn row_count(message: &Message) -> usize
    ensures { result ≡ rows_for message.now }
{
    if message.destinations == 0 {
        1
    } else {
        destination_count(*message)
    }
}

fn destination_count(message: Message) -> usize
    ensures { result ≡ length (destinations_of message) }
{
    (1..=8).filter(|bus| message.goes_to(*bus)).count()
}

impl Table {
    // How many rows the margins of all messages take.
    pub(crate) fn margin_count(&self) -> usize
        ensures { (rules : List Meaning) (gateway : ℕ) → result ≡ margin_count (board_of rules gateway self.now.messages.items) }
    {
        self.messages.iter().map(row_count).sum()
    }
}

// The messages whose legs the rows name on the bus ahead of that of `message`; None where they do not name that.
fn above_in(rows: &[Spot], bus: u8, message: u8) -> Option<LegSet>
    ensures { MatchOption result (has (leg_at bus message) (down_in rows.now bus) ≡ false) (λ s. (has (leg_at bus message) (down_in rows.now bus) ≡ true) × ((k : ℕ) → member s.bits k ≡ (inside numbers k && has (leg_at bus k) (ahead (leg_at bus message) (down_in rows.now bus))))) }
{
    // A loop: it gathers while it searches, and a chain would go over the rows twice.
    let mut above = LegSet::empty();
    for row in rows {
        if row.bus == bus {
            if row.message == message {
                return Some(above);
            }
            above = above.with(row.message);
        }
    }
    None
}

// The delay of a pair, of those of its two legs.
fn over_gateway(gateway: u64, source: Option<u64>, destination: Option<u64>) -> Option<u64>
    requires { (gateway ≤ 1000000000) × ((AtMost 10000000000 source) × (AtMost 10000000000 destination)) }
    ensures { result ≡ across gateway source destination }
{
    Some(source? + gateway + destination?)
}

// The row of a message, by its delay.
fn margin_of(message: Message, destination: u8, delay: Option<u64>) -> Margin
    requires { AtMost 21000000000 delay }
    ensures { result ≡ margin_row message destination delay }
{
    Margin {
        message: message.number,
        destination,
        margin: delay.map_or(-1, |delay| message.deadline as i64 - delay as i64),
        over: delay.is_none(),
    }
}

impl<'b, 'a, R: BusRule> Orders<'b, 'a, R> {
    // The orders that the rows name; WrongRows where they do not name every leg exactly once, by bus.
    pub(crate) fn read(
        network: &'b Network<'a, R>,
        rows: &'b [Spot],
    ) -> Result<Orders<'b, 'a, R>, Refusal>
        ensures { MatchResult result (λ o. (named network.now.table.buses network.now.table.messages.items rows.now ≡ true) × (o.network.now ≡ network.now) × (o.rows.now ≡ rows.now)) (λ f. (named network.now.table.buses network.now.table.messages.items rows.now ≡ false) × (f ≡ WrongRows)) }
    {
        if !network.table.names_legs(rows) {
            return Err(Refusal::WrongRows);
        }
        Ok(Orders { network, rows })
    }

    // The delay of the leg of the message with this number on the bus.
    fn delay_in(&self, bus: u8, number: u8) -> Option<u64>
        ensures delay { result ≡ delays (net_on R.BusRule.answer self.now.network.now) (orders_in self.now.network.now.table.buses self.now.rows.now) (leg_at bus number) }
        ensures bound { AtMost 10000000000 result }
    {
        let above = above_in(self.rows, bus, number)?;
        self.network.delay_on(bus, number, above)
    }

    // The row of a message that stays on one bus.
    fn local_margin(&self, message: Message) -> Margin
        ensures { result ≡ margin_row message 0 (delays (net_on R.BusRule.answer self.now.network.now) (orders_in self.now.network.now.table.buses self.now.rows.now) (source_leg message)) }
    {
        margin_of(message, 0, self.delay_in(message.source, message.number))
    }

    // The row of a message that crosses, for one of its destinations.
    fn pair_margin(&self, message: Message, destination: u8) -> Margin
        ensures { result ≡ pair_row (net_on R.BusRule.answer self.now.network.now) (orders_in self.now.network.now.table.buses self.now.rows.now) message destination }
    {
        let source = self.delay_in(message.source, message.number);
        let there = self.delay_in(destination, message.number);
        margin_of(
            message,
            destination,
            over_gateway(self.network.gateway, source, there),
        )
    }

    // Writes the rows of a message that crosses, and answers how many there are.
    fn write_pairs(&self, message: Message, margins: &mut [Margin]) -> usize
        requires { length (destinations_of message) ≤ length margins.old }
        ensures { Written (map (pair_row (net_on R.BusRule.answer self.now.network.now) (orders_in self.now.network.now.table.buses self.now.rows.now) message) (destinations_of message)) margins.old margins.new result }
    {
        // A loop that counts: a `for` over the destinations by filter and enumerate was tried, and in a method over any rule the check fails at
        // such a closure.
        let mut count: usize = 0;
        for destination in 1..=8 {
            if message.goes_to(destination) {
                margins[count] = self.pair_margin(message, destination);
                count += 1;
            }
        }
        count
    }

    // Writes the rows of a message, and answers how many there are.
    fn write_message(&self, message: Message, margins: &mut [Margin]) -> usize
        requires { rows_for message ≤ length margins.old }
        ensures { Written (margins_of (net_on R.BusRule.answer self.now.network.now) (orders_in self.now.network.now.table.buses self.now.rows.now) message) margins.old margins.new result }
    {
        if message.destinations != 0 {
            return self.write_pairs(message, margins);
        }
        margins[0] = self.local_margin(message);
        1
    }

    // Writes the margins, and answers whether the orders meet the board, and how many rows there are.
    pub(crate) fn write_margins(&self, margins: &mut [Margin]) -> (bool, usize)
        requires { margin_count (board_on R.BusRule.answer self.now.network.now) ≤ length margins.old }
        ensures met { result.0 ≡ all_met (net_on R.BusRule.answer self.now.network.now) (orders_in self.now.network.now.table.buses self.now.rows.now) }
        ensures rows { Written (margin_rows (board_on R.BusRule.answer self.now.network.now) (orders_in self.now.network.now.table.buses self.now.rows.now)) margins.old margins.new result.1 }
    {
        // A place that is carried on, since each message answers how many rows it took.
        let mut count: usize = 0;
        for message in &self.network.table.messages {
            count += self.write_message(*message, &mut margins[count..]);
        }
        (none_below(&margins[..count]), count)
    }
}

// Whether no margin is below zero.
fn none_below(margins: &[Margin]) -> bool
    ensures { result ≡ list_all (λ m. not (below_zero m)) margins.now }
{
    margins.iter().all(|margin| margin.margin >= 0)
}
