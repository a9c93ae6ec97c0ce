// CAN FD, base format, with identifiers of 11 bits.
ghost use Rattle.std.specs.Prelude.{◌≡◌, ◌≤◌, true, false, ◌&&◌, MatchResult};
ghost use Rattle.bus.specs.Range.{In, inside, bit_times};
ghost use Rattle.bus.specs.declared.refusal.Refusal.TheVariants.{Range};
ghost use Rattle.frames.specs.Fd.{data_times, padded, fast_bits, fd_time, fd_sum};
ghost use Rattle.frames.specs.FdTimes.{fd_range};

use crate::carrier::Carrier;
use bus::payload::Payload;
use bus::refusal::Refusal;

#[derive(Clone, Copy, PartialEq, Eq, Debug)]
pub struct Fd11 {
    pub nominal: u64,
    // the bit time of the data phase
    pub fast: u64,
    ghost nominal_range: { In bit_times nominal },
    ghost fast_range: { In (data_times nominal) fast },
}

impl Fd11 {
    // The carrier with these bit times, the nominal one from 50 to 100,000, the fast one from 50 to that; Range else.
    pub fn new(nominal: u64, fast: u64) -> Result<Fd11, Refusal>
        ensures { MatchResult result (λ c. ((inside bit_times nominal && inside (data_times nominal) fast) ≡ true) × (c.nominal ≡ nominal) × (c.fast ≡ fast)) (λ f. ((inside bit_times nominal && inside (data_times nominal) fast) ≡ false) × (f ≡ Range)) }
    {
        if !(50..=100_000).contains(&nominal) || !(50..=nominal).contains(&fast) {
            return Err(Refusal::Range);
        }
        Ok(Fd11 { nominal, fast })
    }
}

// The length to which a payload is padded.
fn padded_length(payload: Payload) -> u64
    ensures { (result ≡ padded payload.bytes) × (result ≤ 64) }
{
    match payload.bytes {
        0..=8 => u64::from(payload.bytes),
        9..=12 => 12,
        13..=16 => 16,
        17..=20 => 20,
        21..=24 => 24,
        25..=32 => 32,
        33..=48 => 48,
        _ => 64,
    }
}

// The bits at the data rate of a frame with so many bytes.
fn fast_bits(length: u64) -> u64
    requires { length ≤ 64 }
    ensures { (result ≡ fast_bits length) × (result ≤ 678) }
{
    let check = if length <= 16 { 27 } else { 32 };
    5 + 8 * length + (1 + 2 * length) + check
}

impl Carrier for Fd11 {
    ghost time = { λ c s. fd_time c.nominal c.fast s };

    ghost bit = { λ c. c.nominal };

    ghost timed = { λ c s p. fd_range c.nominal c.fast s c.nominal_range c.fast_range p };

    ghost ticks = { λ c. c.nominal_range };

    fn frame_time(&self, payload: Payload) -> u64
        ensures time { result ≡ fd_time self.now.nominal self.now.fast payload.bytes }
        ensures sum { result ≡ fd_sum self.now.nominal self.now.fast (padded payload.bytes) }
    {
        34 * self.nominal + fast_bits(padded_length(payload)) * self.fast
    }

    fn bit_time(&self) -> u64 {
        self.nominal
    }
}
