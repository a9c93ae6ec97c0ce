// A message, whose values are in range wherever there is one.
ghost use Rattle.std.specs.Prelude.{◌≡◌, false};
ghost use Rattle.bus.specs.Numbered.{member};
ghost use Rattle.bus.specs.Range.{In, numbers, buses, periods, deadlines, jitters};

use crate::payload::Payload;

// Times are whole nanoseconds. `destinations` is a set of buses as eight bits, bus k at the value 2^(k-1).
#[derive(Clone, Copy, PartialEq, Eq, Debug)]
pub struct Message {
    pub number: u8,
    pub source: u8,
    pub destinations: u8,
    pub payload: Payload,
    pub period: u64,
    pub deadline: u64,
    pub jitter: u64,
    ghost number_range: { In numbers number },
    ghost source_range: { In buses source },
    ghost period_range: { In periods period },
    ghost deadline_range: { In (deadlines period) deadline },
    ghost jitter_range: { In (jitters deadline) jitter },
    // the source is not a destination
    ghost elsewhere: { member destinations source ≡ false },
}
