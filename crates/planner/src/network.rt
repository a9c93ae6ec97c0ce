// A network: the table of a board, the rules of its buses and the time of its gateway.
ghost use Rattle.std.specs.Prelude.{◌≡◌, ◌≤◌, length};

use crate::table::Table;
use bus::leg::Leg;
use bus::leg_set::LegSet;
use bus::message::Message;
use bus::payload::Payload;
use bus::rule::BusRule;
use std::alloc::{AllocError, Global};

#[derive(Drop)]
pub(crate) struct Network<'a, R> {
    pub(crate) rules: &'a [R],
    pub(crate) gateway: u64,
    pub(crate) table: Table,
    ghost ruled: { length rules.now ≡ table.buses },
    ghost gateway_range: { gateway ≤ 1000000000 },
}

// A leg that stands where none is yet.
fn spare() -> Leg {
    Leg {
        message: Message {
            number: 1,
            source: 1,
            destinations: 0,
            payload: Payload { bytes: 0 },
            period: 100_000,
            deadline: 1,
            jitter: 0,
        },
        source: true,
    }
}

impl<'a, R: BusRule> Network<'a, R> {
    ghost use Rattle.std.specs.Prelude.{[], map, IfOk};
    ghost use Rattle.bus.specs.Legs.{legs_on};
    ghost use Rattle.bus.specs.Numbered.{member};
    ghost use Rattle.boards.specs.Boards.{board_of, rule_at};
    ghost use Rattle.planner.specs.Networks.{board_on, rules_of};

    // The network of a board that has no bus.
    pub(crate) fn new(heap: Global) -> Result<Network<'a, R>, AllocError>
        ensures { IfOk result (λ n. board_on R.BusRule.answer n ≡ board_of [] 0 []) }
    {
        Ok(Network {
            rules: &[],
            gateway: 0,
            table: Table::new(heap)?,
        })
    }

    // These buses, without messages.
    pub(crate) fn renew(&mut self, rules: &'a [R], gateway: u64)
        requires few { length rules.now ≤ 8 }
        requires gateway { gateway ≤ 1000000000 }
        ensures { board_on R.BusRule.answer self.new ≡ board_of (map R.BusRule.answer rules.now) gateway [] }
    {
        self.rules = rules;
        self.gateway = gateway;
        self.table.renew(rules.len() as u8);
    }

    // The delay of a message's leg on a bus, below the legs of the set, by the rule of the bus; None where the bus is not there.
    pub(crate) fn delay_on(&self, bus: u8, number: u8, above: LegSet) -> Option<u64>
        ensures { result ≡ rule_at (rules_of R.BusRule.answer self.now) bus (legs_on self.now.table.messages.items bus) number (member above.bits) }
    {
        let rule = self.rules.get(usize::from(bus).checked_sub(1)?)?;
        // An array and a count: a board takes no memory after its making, and the library's vector of fixed room wants a default message,
        // which there is not.
        let mut legs = [spare(); 64];
        let count = self.table.fill(&mut legs, bus);
        rule.delay(&legs[..count], number, above)
    }
}
