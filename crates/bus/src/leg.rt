// A leg: a message on one of its buses.
use crate::message::Message;

#[derive(Clone, Copy, PartialEq, Eq, Debug)]
pub struct Leg {
    pub message: Message,
    // whether this is the leg on the message's source bus
    pub source: bool,
}
