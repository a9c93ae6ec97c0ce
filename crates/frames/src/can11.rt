// Classic CAN with identifiers of 11 bits.
ghost use Rattle.std.specs.Prelude.{◌≡◌, ℕ};
ghost use Rattle.std.proofs.Common.{lit≤};
ghost use Rattle.bus.specs.Range.{In, payloads, frame_times};
ghost use Rattle.frames.specs.Classic.{can11_time};

use crate::carrier::Carrier;
use crate::classic::{Classic, Identifier};

#[derive(Clone, Copy)]
pub struct Bits11;

impl Identifier for Bits11 {
    const BASE: u64 = 55;

    ghost BASE = { 55 };

    ghost low = { lit≤ tt };

    ghost high = { lit≤ tt };
}

pub type Can11 = Classic<Bits11>;

// That the carrier's times are can11_time, and in range, as a theorem.
pub fn can11_times(carrier: Can11)
    ensures times { (s : ℕ) → ⟦<Can11 as Carrier>⟧.time carrier s ≡ can11_time carrier.bit s }
    ensures range { (s : ℕ) → In payloads s → In frame_times (⟦<Can11 as Carrier>⟧.time carrier s) }
{}
