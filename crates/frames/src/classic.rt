// Classic CAN: what identifiers of 11 and of 29 bits share.
ghost use Rattle.std.specs.Prelude.{◌≡◌, ℕ, ◌≤◌, true, false, MatchResult};
ghost use Rattle.bus.specs.Range.{In, inside, bit_times};
ghost use Rattle.bus.specs.declared.refusal.Refusal.TheVariants.{Range};
ghost use Rattle.frames.specs.Classic.{classic_time};
ghost use Rattle.frames.specs.ClassicTimes.{classic_range};

use crate::carrier::Carrier;
use bus::payload::Payload;
use bus::refusal::Refusal;
use std::alloc::AllocError;
use std::marker::PhantomData;

// A length of identifiers. A trait and no const parameter, since the bounds on the base are laws of it: so `new` asks nothing of callers.
pub trait Identifier {
    // the bits of an empty frame
    const BASE: u64;

    ghost BASE: { ℕ };

    ghost low: { 1 ≤ BASE };

    ghost high: { BASE ≤ 80 };
}

// A carrier with identifiers of one length.
#[derive_where(PartialEq, Eq, Debug)]
pub struct Classic<I> {
    pub bit: u64,
    // it holds nothing, and only says which length
    pub of: PhantomData<I>,
    ghost range: { In bit_times bit },
}

// By hand: no derive makes a Clone for a struct with a type parameter and a ghost field.
impl<I> Clone for Classic<I> {
    ghost is_clone = { λ x y. y ≡ x };

    ghost is_infallible = { λ _. Unit {0} };

    fn clone(&self) -> Result<Classic<I>, AllocError>
        ensures { result ≡ Ok self.now }
    {
        Ok(*self)
    }
}

impl<I> Copy for Classic<I> {}

impl<I: Identifier> Classic<I> {
    // The carrier with this bit time, from 50 to 100,000; Range else.
    pub fn new(bit: u64) -> Result<Classic<I>, Refusal>
        ensures { MatchResult result (λ c. (inside bit_times bit ≡ true) × (c.bit ≡ bit)) (λ f. (inside bit_times bit ≡ false) × (f ≡ Range)) }
    {
        if !(50..=100_000).contains(&bit) {
            return Err(Refusal::Range);
        }
        Ok(Classic {
            bit,
            of: PhantomData,
        })
    }
}

impl<I: Identifier> Carrier for Classic<I> {
    ghost time = { λ c s. classic_time I.BASE c.bit s };

    ghost bit = { λ c. c.bit };

    ghost timed = { λ c s p. classic_range I.BASE c.bit s I.low I.high c.range p };

    ghost ticks = { λ c. c.range };

    fn frame_time(&self, payload: Payload) -> u64 {
        let size = u64::from(payload.bytes);
        if size <= 8 {
            return (I::BASE + 10 * size) * self.bit;
        }
        let whole = size / 8 * ((I::BASE + 10 * 8) * self.bit);
        let rest = size % 8;
        if rest == 0 {
            return whole;
        }
        whole + (I::BASE + 10 * rest) * self.bit
    }

    fn bit_time(&self) -> u64 {
        self.bit
    }
}
