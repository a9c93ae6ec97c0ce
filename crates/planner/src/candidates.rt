// The legs that are tested at a rank: the ready ones, then the others, each by rising message number.
ghost use Rattle.std.specs.Prelude.{◌≡◌, ℕ, true, ◌&&◌, List, Some, nat_lt};
ghost use Rattle.std.specs.Option.{option_map};
ghost use Rattle.bus.specs.Rules.{Meaning};
ghost use Rattle.search.specs.Net.{has};
ghost use Rattle.search.specs.Stored.{stored, behind, head_of};
ghost use Rattle.search.specs.Walk.{candidates};
ghost use Rattle.boards.specs.Boards.{board_of, message_of};
ghost use Rattle.boards.specs.Nets.{leg_at, net_of, pairs_of};
ghost use Rattle.planner.specs.Storage.{ranked_of, open_legs, is_open, ready_is, next_such};

use crate::opens::is_open;
use crate::ranked::Ranked;
use crate::ranks::is_ready;
use crate::table::Table;
use bus::message::Message;

// Whether the message's leg on the bus is open and above `after`, and its readiness as given.
fn is_such(ranked: &[Ranked], message: Message, bus: u8, after: u8, ready: bool) -> bool
    ensures { result ≡ (nat_lt after message.number && (is_open ranked.now bus message && ready_is ready ranked.now (pairs_of message) (leg_at bus message.number))) }
{
    message.number > after
        && is_open(ranked, message, bus)
        && is_ready(ranked, message, bus) == ready
}

impl Table {
    // The first open leg above `after` whose readiness is as given, by its message's number.
    fn next_such(&self, ranked: &[Ranked], bus: u8, after: u8, ready: bool) -> Option<u8>
        ensures { option_map (leg_at bus) result ≡ next_such self.now.messages.items ranked.now bus after ready }
    {
        self.messages
            .iter()
            .find(|message| is_such(ranked, **message, bus, after, ready))
            .map(|message| message.number)
    }

    // The first leg to be tested at the lowest free rank of the bus.
    pub(crate) fn first_candidate(&self, ranked: &[Ranked], bus: u8) -> Option<u8>
        ensures { (rules : List Meaning) (gateway : ℕ) → option_map (leg_at bus) result ≡ head_of (candidates (net_of (board_of rules gateway self.now.messages.items)) (stored (ranked_of ranked.now)) (open_legs self.now.messages.items ranked.now bus)) }
    {
        self.next_such(ranked, bus, 0, true)
            .or_else(|| self.next_such(ranked, bus, 0, false))
    }

    // The leg to be tested after that of the message, which is open on the bus: a fact in contracts and in no type, as walking.rt says.
    pub(crate) fn next_candidate(&self, ranked: &[Ranked], bus: u8, message: Message) -> Option<u8>
        requires listed { message_of self.now.messages.items message.number ≡ Some message }
        requires open { has (leg_at bus message.number) (open_legs self.now.messages.items ranked.now bus) ≡ true }
        ensures { (rules : List Meaning) (gateway : ℕ) → option_map (leg_at bus) result ≡ head_of (behind (leg_at bus message.number) (candidates (net_of (board_of rules gateway self.now.messages.items)) (stored (ranked_of ranked.now)) (open_legs self.now.messages.items ranked.now bus))) }
    {
        if !is_ready(ranked, message, bus) {
            return self.next_such(ranked, bus, message.number, false);
        }
        self.next_such(ranked, bus, message.number, true)
            .or_else(|| self.next_such(ranked, bus, 0, false))
    }
}
