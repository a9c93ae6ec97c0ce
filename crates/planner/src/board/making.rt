// A place for a board, and the making of a board in it.
ghost use Rattle.std.specs.Prelude.{◌≡◌, false, List, [], map, length, IfOk, Some, None, MatchResult, OnOk};
ghost use Rattle.boards.specs.Boards.{board_of};
ghost use Rattle.planner.specs.Logs.{Line, Happened, LogLaw};
ghost use Rattle.planner.specs.Refusing.{make_fault};
ghost use Rattle.planner.specs.Standing.{fresh};
ghost use Rattle.planner.specs.Views.{standing};

use super::Board;
use crate::network::Network;
use crate::walk::Walk;
use bus::refusal::Refusal;
use bus::rule::BusRule;
use std::alloc::{AllocError, Global};

impl<'a, R: BusRule> Board<'a, R> {
    // A place for a board, without a bus. It reserves all the memory that any call will need.
    pub fn new(heap: Global) -> Result<Board<'a, R>, AllocError>
        ensures { IfOk result (λ b. standing R.BusRule.answer b ≡ fresh (board_of [] 0 [])) }
    {
        Ok(Board {
            network: Network::new(heap)?,
            walk: Walk::new(heap)?,
        })
    }

    // Makes a board of these buses, without messages. Every log of calls on it from here on keeps the law.
    pub fn make(&mut self, rules: &'a [R], gateway: u64) -> Result<(), Refusal>
        ensures answer { MatchResult result (λ _. (make_fault (length rules.now) gateway ≡ None) × (standing R.BusRule.answer self.new ≡ fresh (board_of (map R.BusRule.answer rules.now) gateway []))) (λ f. (make_fault (length rules.now) gateway ≡ Some f) × (self.new ≡ self.old)) }
        ensures law { OnOk result ((log : List Line) → Happened (standing R.BusRule.answer self.new) log → LogLaw 0 false log) }
    {
        if !(1..=8).contains(&rules.len()) {
            return Err(Refusal::Count);
        }
        if gateway > 1_000_000_000 {
            return Err(Refusal::Range);
        }
        self.network.renew(rules, gateway);
        self.walk.reset();
        Ok(())
    }
}
