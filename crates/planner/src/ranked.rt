// What the walk keeps of a ranked leg.
ghost use Rattle.std.specs.Prelude.{◌≡◌, ◌&&◌, ◌==◌};

#[derive(Clone, Copy, PartialEq, Eq, Debug)]
pub(crate) struct Ranked {
    pub(crate) bus: u8,
    pub(crate) message: u8,
    pub(crate) delay: u64,
}

impl Ranked {
    // Whether it is the leg of this message on this bus. No derived equality: bus and message come apart, and the delay does not count.
    pub(crate) fn is_leg(&self, bus: u8, message: u8) -> bool
        ensures { result ≡ (self.now.bus == bus && self.now.message == message) }
    {
        self.bus == bus && self.message == message
    }
}
