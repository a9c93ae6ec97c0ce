// From what a caller gives to a message.
ghost use Rattle.std.specs.Prelude.{◌≡◌, ◌≤◌, Bool};
ghost use Rattle.bus.specs.Entries.{in_range, Makes};

use crate::entry::Entry;
use crate::leg_set::has;
use crate::message::Message;
use crate::payload::Payload;
use crate::refusal::Refusal;

impl Entry {
    fn in_range(self) -> bool
        ensures { result ≡ in_range self }
    {
        (1..=64).contains(&self.number)
            && (1..=8).contains(&self.source)
            && self.payload <= 64
            && (100_000..=10_000_000_000).contains(&self.period)
            && (1..=self.period).contains(&self.deadline)
            && self.jitter <= self.deadline
    }
}

impl TryFrom<Entry> for Message {
    type Error = Refusal;

    ghost try_from_gives = { Makes };

    // The message with these values; Range where one is out of its range, else SourceIsDestination where that holds.
    fn try_from(given: Entry) -> Result<Message, Refusal> {
        if !given.in_range() {
            return Err(Refusal::Range);
        }
        if has(u64::from(given.destinations), given.source as u8) {
            return Err(Refusal::SourceIsDestination);
        }
        Ok(Message {
            number: given.number as u8,
            source: given.source as u8,
            destinations: given.destinations,
            payload: Payload {
                bytes: given.payload as u8,
            },
            period: given.period,
            deadline: given.deadline,
            jitter: given.jitter,
        })
    }
}
