// The legs of a bus.
ghost use Rattle.std.specs.Prelude.{◌≡◌, IfOk};
ghost use Rattle.bus.specs.Legs.{legs_on};

use bus::leg::Leg;
use bus::message::Message;
use std::alloc::{AllocError, Global};

// The legs that messages have on a bus, in the messages' order.
pub(crate) fn legs_on(heap: Global, messages: &[Message], bus: u8) -> Result<Vec<Leg>, AllocError>
    ensures { IfOk result (λ v. v.items ≡ legs_on messages.now bus) }
{
    messages
        .iter()
        .filter_map(|message| message.leg_on(bus))
        .collect(heap)
}
