// Which messages are entered and withdrawn, and what is refused.
ghost use Rattle.std.specs.Prelude.{◌≡◌, Bool, true, Some, None, MatchResult};
ghost use Rattle.bus.specs.Entries.{Holds};
ghost use Rattle.boards.specs.Boards.{message_of, on_board};
ghost use Rattle.planner.specs.Refusing.{given_on_board, enter_fault, withdraw_fault, try_fault, look_fault};

use crate::rows::Spot;
use crate::table::Table;
use bus::entry::Entry;
use bus::message::Message;
use bus::refusal::Refusal;

impl Table {
    // Whether the source and every destination are on the board.
    fn is_on_board(&self, given: Entry) -> bool
        ensures { result ≡ given_on_board self.now.buses given }
    {
        given.source <= u64::from(self.buses) && u64::from(given.destinations) < 1 << self.buses
    }

    // The message to enter.
    pub(crate) fn admitted(&self, given: Entry) -> Result<Message, Refusal>
        ensures { MatchResult result (λ m. (enter_fault self.now.buses self.now.messages.items given ≡ None) × Holds given m × (on_board self.now.buses m ≡ true) × (message_of self.now.messages.items m.number ≡ None)) (λ f. enter_fault self.now.buses self.now.messages.items given ≡ Some f) }
    {
        let made = Message::try_from(given);
        if !self.is_on_board(given) && !matches!(made, Err(Refusal::Range)) {
            return Err(Refusal::NoBus);
        }
        let message = made?;
        if self.find(message.number).is_some() {
            return Err(Refusal::Taken);
        }
        Ok(message)
    }

    // The number of the message to withdraw.
    pub(crate) fn to_withdraw(&self, number: u64) -> Result<u8, Refusal>
        ensures { MatchResult result (λ k. (withdraw_fault self.now.messages.items number ≡ None) × (k ≡ number)) (λ f. withdraw_fault self.now.messages.items number ≡ Some f) }
    {
        if !(1..=64).contains(&number) {
            return Err(Refusal::Range);
        }
        if self.find(number as u8).is_none() {
            return Err(Refusal::NoLeg);
        }
        Ok(number as u8)
    }

    // The leg to look at, once orders are found.
    pub(crate) fn to_look(&self, bus: u64, number: u64) -> Result<Spot, Refusal>
        ensures { MatchResult result (λ s. (look_fault self.now.buses self.now.messages.items true bus number ≡ None) × (s.bus ≡ bus) × (s.message ≡ number)) (λ f. (found : Bool) → look_fault self.now.buses self.now.messages.items found bus number ≡ Some f) }
    {
        if !(1..=8).contains(&bus) || !(1..=64).contains(&number) {
            return Err(Refusal::Range);
        }
        if bus > u64::from(self.buses) {
            return Err(Refusal::NoBus);
        }
        let spot = Spot {
            bus: bus as u8,
            message: number as u8,
        };
        if !self.has_leg_on(spot.bus, spot.message) {
            return Err(Refusal::NoLeg);
        }
        Ok(spot)
    }

    // The tries to make.
    pub(crate) fn to_try(&self, count: u64) -> Result<u64, Refusal>
        ensures { MatchResult result (λ n. (try_fault self.now.messages.items count ≡ None) × (n ≡ count)) (λ f. try_fault self.now.messages.items count ≡ Some f) }
    {
        if !(1..=1_000_000).contains(&count) {
            return Err(Refusal::Range);
        }
        if self.is_empty() {
            return Err(Refusal::NoMessages);
        }
        Ok(count)
    }
}
