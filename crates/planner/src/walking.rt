// The steps of the walk of a board. That the leg under test belongs to the walk, and that a leg is open, stands in contracts and in no type:
// such a type would have to borrow the walk that the step changes.
ghost use Rattle.std.specs.Prelude.{◌≡◌, ℕ, true, not, Some, None, IfOk};
ghost use Rattle.std.specs.Option.{option_map};
ghost use Rattle.search.specs.Net.{has};
ghost use Rattle.search.specs.Walk.{candidates, fit};
ghost use Rattle.search.specs.Stored.{behind, head_of, first_open, place_of, placed, retract as retracted, stored, testing, try_at, try_once, try_up_to, upwards};
ghost use Rattle.boards.specs.Nets.{leg_at};
ghost use Rattle.planner.specs.Networks.{net_on};
ghost use Rattle.planner.specs.Storage.{ranked_of, open_legs};
ghost use Rattle.planner.specs.Stages.{after_ranked, buses_from, layout, Placed, progress_by, reached, spot_leg, stage_of, stands};
ghost use Rattle.planner.specs.declared.stage.Stage.TheVariants.{Start, Testing};

use crate::network::Network;
use crate::progress::Progress;
use crate::ranked::Ranked;
use crate::ranks::is_ready;
use crate::rows::Spot;
use crate::stage::Stage;
use crate::table::Table;
use crate::walk::Walk;
use bus::rule::BusRule;
use std::alloc::{AllocError, Global};

impl Table {
    // The first leg to be tested at the lowest free rank of the bus, with the bus.
    fn first_spot(&self, ranked: &[Ranked], bus: u8) -> Option<Spot>
        ensures { option_map spot_leg result ≡ head_of (candidates (layout self.now.buses self.now.messages.items) (stored (ranked_of ranked.now)) (open_legs self.now.messages.items ranked.now bus)) }
    {
        self.first_candidate(ranked, bus)
            .map(|message| Spot { bus, message })
    }

    // The first test above the ranked legs, where the buses before `from` are full.
    pub(crate) fn upward(&self, ranked: &[Ranked], from: u8) -> Stage
        requires stands { placed (layout self.now.buses self.now.messages.items) (ranked_of ranked.now) ≡ true }
        requires full { first_open (ranked_of ranked.now) (layout self.now.buses self.now.messages.items).buses ≡ first_open (ranked_of ranked.now) (buses_from self.now.buses self.now.messages.items from) }
        ensures { reached ranked.now result ≡ Some (upwards (layout self.now.buses self.now.messages.items) (ranked_of ranked.now) (place_of (layout self.now.buses self.now.messages.items) (ranked_of ranked.now)).open') }
    {
        (from..=self.buses)
            .find_map(|bus| self.first_spot(ranked, bus))
            .map_or(Stage::Complete, Stage::Testing)
    }

    // The leg to be tested next where this one was the latest to be ranked; None where it was ready.
    fn after_ranked(&self, ranked: &[Ranked], bus: u8, number: u8) -> Option<u8>
        requires { has (leg_at bus number) (open_legs self.now.messages.items ranked.now bus) ≡ true }
        ensures { (count : ℕ) → option_map (leg_at bus) result ≡ after_ranked (layout count self.now.messages.items) (ranked_of ranked.now) (open_legs self.now.messages.items ranked.now bus) (leg_at bus number) }
    {
        let message = self.find(number)?;
        if is_ready(ranked, message, bus) {
            return None;
        }
        self.next_candidate(ranked, bus, message)
    }

    // The leg to be tested next where this one was tested and does not fit.
    fn after_tested(&self, ranked: &[Ranked], bus: u8, number: u8) -> Option<u8>
        requires { has (leg_at bus number) (open_legs self.now.messages.items ranked.now bus) ≡ true }
        ensures { (count : ℕ) → option_map (leg_at bus) result ≡ head_of (behind (leg_at bus number) (candidates (layout count self.now.messages.items) (stored (ranked_of ranked.now)) (open_legs self.now.messages.items ranked.now bus))) }
    {
        self.next_candidate(ranked, bus, self.find(number)?)
    }
}

impl<'a, R: BusRule> Network<'a, R> {
    // The delay with which the leg fits below the other open legs of its bus; None where it does not fit.
    fn test(&self, ranked: &[Ranked], spot: Spot) -> Option<u64>
        requires { stands self.now.table.buses self.now.table.messages.items ranked.now (Testing spot) ≡ true }
        ensures { result ≡ fit (net_on R.BusRule.answer self.now) (place_of (net_on R.BusRule.answer self.now) (ranked_of ranked.now)).delays (place_of (net_on R.BusRule.answer self.now) (ranked_of ranked.now)).open' (spot_leg spot) }
    {
        let message = self.table.find(spot.message)?;
        let above = self.table.others(ranked, spot.bus, spot.message);
        self.fits(ranked, message, spot.bus, above)
    }
}

impl Walk {
    // A walk at its start.
    pub(crate) fn new(heap: Global) -> Result<Walk, AllocError>
        ensures { IfOk result (λ w. w.stage ≡ Start) }
    {
        Ok(Walk {
            ranked: Vec::with_capacity(heap, 512)?,
            stage: Stage::Start,
        })
    }

    // Back to the start.
    pub(crate) fn reset(&mut self)
        ensures { self.new.stage ≡ Start }
    {
        self.ranked.clear();
        self.stage = Stage::Start;
    }

    // How far it has come.
    pub(crate) fn progress(&self) -> Progress
        ensures { result ≡ progress_by self.now.stage }
    {
        self.stage.into()
    }

    // Begins, where it has not begun.
    fn begin(&mut self, table: &Table)
        ensures { reached self.new.ranked.items self.new.stage ≡ Some (stage_of (layout table.now.buses table.now.messages.items) self.old.ranked.items self.old.stage) }
    {
        if self.stage == Stage::Start {
            self.ranked.clear();
            self.stage = table.upward(&self.ranked, 1);
        }
    }

    // Takes rankings back until a leg is left to test.
    fn retract(&mut self, table: &Table)
        requires { Placed table.now.messages.items self.old.ranked.items }
        ensures { (count : ℕ) → placed (layout count table.now.messages.items) (ranked_of self.old.ranked.items) ≡ true → reached self.new.ranked.items self.new.stage ≡ Some (retracted (layout count table.now.messages.items) (ranked_of self.old.ranked.items)) }
    {
        while let Some(leg) = self.ranked.pop() {
            if let Some(message) = table.after_ranked(&self.ranked, leg.bus, leg.message) {
                self.stage = Stage::Testing(Spot {
                    bus: leg.bus,
                    message,
                });
                return;
            }
        }
        self.stage = Stage::Exhausted;
    }

    // The leg was tested, and does not fit: the next test at its rank, or below it.
    fn pass(&mut self, table: &Table, spot: Spot)
        requires { (count : ℕ) × (stands count table.now.messages.items self.old.ranked.items (Testing spot) ≡ true) }
        ensures { (count : ℕ) → stands count table.now.messages.items self.old.ranked.items (Testing spot) ≡ true → reached self.new.ranked.items self.new.stage ≡ Some (try_at (layout count table.now.messages.items) (ranked_of self.old.ranked.items) (spot_leg spot) None) }
    {
        match table.after_tested(&self.ranked, spot.bus, spot.message) {
            Some(message) => {
                self.stage = Stage::Testing(Spot {
                    bus: spot.bus,
                    message,
                });
            }
            None => self.retract(table),
        }
    }

    // The leg was tested, and fits with this delay: it is ranked.
    fn rank(&mut self, table: &Table, spot: Spot, delay: u64)
        requires { stands table.now.buses table.now.messages.items self.old.ranked.items (Testing spot) ≡ true }
        ensures { reached self.new.ranked.items self.new.stage ≡ Some (try_at (layout table.now.buses table.now.messages.items) (ranked_of self.old.ranked.items) (spot_leg spot) (Some delay)) }
    {
        self.ranked.push_reserved(Ranked {
            bus: spot.bus,
            message: spot.message,
            delay,
        });
        self.stage = table.upward(&self.ranked, spot.bus);
    }

    // One try: the leg is tested.
    fn step<R: BusRule>(&mut self, network: &Network<'_, R>, spot: Spot)
        requires { stands network.now.table.buses network.now.table.messages.items self.old.ranked.items (Testing spot) ≡ true }
        ensures { reached self.new.ranked.items self.new.stage ≡ Some (try_once (net_on R.BusRule.answer network.now) (testing (ranked_of self.old.ranked.items) (spot_leg spot))) }
    {
        match network.test(&self.ranked, spot) {
            Some(delay) => self.rank(&network.table, spot, delay),
            None => self.pass(&network.table, spot),
        }
    }

    // Makes so many tries, fewer only where the walk ends, and answers how many were made.
    pub(crate) fn run<R: BusRule>(&mut self, network: &Network<'_, R>, tries: u64) -> u64
        requires { stands network.now.table.buses network.now.table.messages.items self.old.ranked.items self.old.stage ≡ true }
        ensures made { result ≡ (try_up_to (net_on R.BusRule.answer network.now) tries (stage_of (net_on R.BusRule.answer network.now) self.old.ranked.items self.old.stage)).made }
        ensures stage { stage_of (net_on R.BusRule.answer network.now) self.new.ranked.items self.new.stage ≡ (try_up_to (net_on R.BusRule.answer network.now) tries (stage_of (net_on R.BusRule.answer network.now) self.old.ranked.items self.old.stage)).stage }
        ensures stands { stands network.now.table.buses network.now.table.messages.items self.new.ranked.items self.new.stage ≡ true }
    {
        self.begin(&network.table);
        for made in 0..tries {
            let Stage::Testing(spot) = self.stage else {
                return made;
            };
            self.step(network, spot);
        }
        tries
    }
}
