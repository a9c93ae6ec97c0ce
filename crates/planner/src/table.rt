// The table of a board: how many buses it has, and the messages on them.
ghost use Rattle.std.specs.Prelude.{◌≡◌, ◌≤◌, true, vec_capacity};
ghost use Rattle.std.specs.List.{list_all};
ghost use Rattle.boards.specs.Boards.{rising_messages, on_board};

use bus::leg::Leg;
use bus::message::Message;
use std::alloc::{AllocError, Global};

// All memory is reserved when the table is made.
#[derive(Drop)]
pub(crate) struct Table {
    pub(crate) buses: u8,
    // by rising number
    pub(crate) messages: Vec<Message>,
    ghost few: { buses ≤ 8 },
    ghost roomy: { 64 ≤ vec_capacity messages },
    ghost rises: { rising_messages messages.items ≡ true },
    ghost on_buses: { list_all (on_board buses) messages.items ≡ true },
}

impl Table {
    ghost use Rattle.std.specs.Prelude.{[], length, take, is_some, IfOk, None};
    ghost use Rattle.bus.specs.Legs.{legs_on};
    ghost use Rattle.boards.specs.Boards.{message_of};
    ghost use Rattle.boards.specs.Nets.{leg_from};
    ghost use Rattle.planner.specs.Messages.{entered, withdrawn, place_of};
    ghost use Rattle.planner.specs.Refusing.{is_none};

    // The table of a board that has no bus.
    pub(crate) fn new(heap: Global) -> Result<Table, AllocError>
        ensures { IfOk result (λ t. (t.buses ≡ 0) × (t.messages.items ≡ [])) }
    {
        Ok(Table {
            buses: 0,
            messages: Vec::with_capacity(heap, 64)?,
        })
    }

    // So many buses, and no messages.
    pub(crate) fn renew(&mut self, buses: u8)
        requires { buses ≤ 8 }
        ensures buses { self.new.buses ≡ buses }
        ensures empty { self.new.messages.items ≡ [] }
    {
        self.messages.clear();
        self.buses = buses;
    }

    pub(crate) fn is_empty(&self) -> bool
        ensures { result ≡ is_none self.now.messages.items }
    {
        self.messages.is_empty()
    }

    // The message with this number.
    pub(crate) fn find(&self, number: u8) -> Option<Message>
        ensures { result ≡ message_of self.now.messages.items number }
    {
        self.messages
            .iter()
            .find(|message| message.number == number)
            .copied()
    }

    // Whether there is the message with this number, with a leg on the bus.
    pub(crate) fn has_leg_on(&self, bus: u8, number: u8) -> bool
        ensures { result ≡ is_some (leg_from bus (message_of self.now.messages.items number)) }
    {
        self.find(number)
            .is_some_and(|message| message.leg_on(bus).is_some())
    }

    // Writes the legs of a bus to the front, and answers how many there are.
    pub(crate) fn fill(&self, legs: &mut [Leg], bus: u8) -> usize
        requires room { length self.now.messages.items ≤ length legs.old }
        ensures few { result ≤ length self.now.messages.items }
        ensures legs { take result legs.new ≡ legs_on self.now.messages.items bus }
    {
        // A loop that counts: the count is the place of the next leg and then the answer, and a chain would go over the messages twice.
        let mut count: usize = 0;
        for message in &self.messages {
            if let Some(leg) = message.leg_on(bus) {
                legs[count] = leg;
                count += 1;
            }
        }
        count
    }

    // The place of a number: how many messages stand before the first that has it or a larger one.
    fn place_of(&self, number: u8) -> usize
        ensures { result ≡ place_of self.now.messages.items number }
    {
        self.messages
            .partition_point(|message| message.number < number)
    }

    // Adds a message at its place. There is room, since numbers rise from 1 to 64.
    pub(crate) fn put(&mut self, message: Message)
        requires free { message_of self.old.messages.items message.number ≡ None }
        requires on_buses { on_board self.old.buses message ≡ true }
        ensures items { self.new.messages.items ≡ entered message self.old.messages.items }
        ensures buses { self.new.buses ≡ self.old.buses }
    {
        let at = self.place_of(message.number);
        let _ = self.messages.insert(at, message);
    }

    // Removes the message with this number.
    pub(crate) fn take(&mut self, number: u8)
        ensures items { self.new.messages.items ≡ withdrawn number self.old.messages.items }
        ensures buses { self.new.buses ≡ self.old.buses }
    {
        // Found and cut out at once: `retain` would go over the messages one by one.
        let at = self.place_of(number);
        if self
            .messages
            .get(at)
            .is_some_and(|message| message.number == number)
        {
            let _ = self.messages.remove(at);
        }
    }
}
