// The bytes of a message: from 0 to 64.
ghost use Rattle.bus.specs.Range.{In, payloads};

#[derive(Clone, Copy, PartialEq, Eq, Debug)]
pub struct Payload {
    pub bytes: u8,
    ghost range: { In payloads bytes },
}
