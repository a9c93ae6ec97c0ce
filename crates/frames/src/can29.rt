// Classic CAN with identifiers of 29 bits.
ghost use Rattle.std.specs.Prelude.{◌≡◌, ℕ};
ghost use Rattle.std.proofs.Common.{lit≤};
ghost use Rattle.bus.specs.Range.{In, payloads, frame_times};
ghost use Rattle.frames.specs.Classic.{can29_time};

use crate::carrier::Carrier;
use crate::classic::{Classic, Identifier};

#[derive(Clone, Copy)]
pub struct Bits29;

impl Identifier for Bits29 {
    const BASE: u64 = 80;

    ghost BASE = { 80 };

    ghost low = { lit≤ tt };

    ghost high = { lit≤ tt };
}

pub type Can29 = Classic<Bits29>;

// That the carrier's times are can29_time, and in range, as a theorem.
pub fn can29_times(carrier: Can29)
    ensures times { (s : ℕ) → ⟦<Can29 as Carrier>⟧.time carrier s ≡ can29_time carrier.bit s }
    ensures range { (s : ℕ) → In payloads s → In frame_times (⟦<Can29 as Carrier>⟧.time carrier s) }
{}
