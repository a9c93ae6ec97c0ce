// What the equation rule answers.
//
// A leg queues for the least w with w = B + Σ ⌈(w + J + τ) / T⌉ · C, the sum over the legs above it.
ghost use Rattle.std.specs.Prelude.{◌≡◌, ◌+◌, ◌-◌, ◌^◌, ◌≤◌, min, IfSome, Some};
ghost use Rattle.bus.specs.Legs.{leg_of};
ghost use Rattle.bus.specs.Numbered.{member};
ghost use Rattle.bus.specs.declared.leg.Leg.{Leg as Shown};
ghost use Rattle.frames.specs.Equation as eq;
ghost use Rattle.frames.specs.Least.{least_solution, Exact};
ghost use Rattle.frames.specs.EquationLaws.{equation-bounded, equation-absent, equation-shorter};

use crate::carrier::Carrier;
use crate::equation::Equation;
use bus::leg::Leg;
use bus::leg_set::LegSet;
use bus::legs::{leg_of, timely};
use bus::rule::BusRule;

// A queuing time to try: no longer than the longest deadline.
#[derive(Clone, Copy)]
struct Trial {
    time: u64,
    ghost short: { time ≤ 10000000000 },
}

// A leg among the legs of its bus, by its message's number, and the set of those above it.
#[derive(Drop)]
struct Queue<'a, C> {
    rule: &'a Equation<C>,
    legs: &'a [Leg],
    number: u8,
    above: LegSet,
}

impl<C: Carrier> Equation<C> {
    // C of a leg.
    fn frame_time(&self, leg: Leg) -> u64
        ensures { result ≡ eq.time_of (C.Carrier.time self.now.carrier) leg }
    {
        self.carrier.frame_time(leg.message.payload)
    }

    // B: the longest time of a leg of the bus.
    fn blocking(&self, legs: &[Leg]) -> u64
        ensures { result ≡ eq.blocking (C.Carrier.time self.now.carrier) legs.now }
    {
        legs.iter()
            .fold(0, |longest, leg| longest.max(self.frame_time(*leg)))
    }

    // J of a leg as the others see it.
    fn jitter(&self, leg: Leg) -> u64
        ensures { result ≡ eq.jitter_of (C.Carrier.time self.now.carrier) leg }
    {
        // The time is taken for both: in the one arm alone it costs a jump that is foreseen badly.
        let frame = self.frame_time(leg);
        if leg.source {
            leg.message.jitter
        } else {
            leg.message.deadline.saturating_sub(frame)
        }
    }

    // The time in which frames of a leg come that go before in a queuing time of w.
    fn window(&self, leg: Leg, w: Trial) -> u64
        ensures value { result ≡ w.time + eq.jitter_of (C.Carrier.time self.now.carrier) leg + C.Carrier.bit self.now.carrier }
        ensures bound { result ≤ 20000100000 }
    {
        w.time + self.jitter(leg) + self.carrier.bit_time()
    }

    // The time that the frames of a leg take in a queuing time of w.
    fn demand(&self, leg: Leg, w: Trial) -> u64
        ensures { result ≡ eq.demand_of (C.Carrier.time self.now.carrier) (C.Carrier.bit self.now.carrier) w.time leg }
    {
        self.window(leg, w).div_ceil(leg.message.period) * self.frame_time(leg)
    }

    // What a leg's delay has beside the queuing time.
    fn rest(&self, leg: Leg) -> u64
        ensures { result ≡ eq.ends (C.Carrier.time self.now.carrier) leg 0 }
    {
        let frame = self.frame_time(leg);
        if leg.source {
            leg.message.jitter + frame
        } else {
            frame
        }
    }
}

impl<C: Carrier> Queue<'_, C> {
    // Whether a leg is another one than the number's and above it.
    fn is_above(&self, leg: Leg) -> bool
        ensures { result ≡ eq.above self.now.number (member self.now.above.bits) leg }
    {
        leg.message.number != self.number && self.above.contains(leg.message.number)
    }

    // The time that the frames of the legs above take in a queuing time of w, as far as 64 bits go.
    fn interference(&self, w: Trial) -> u64
        ensures { result ≡ min (eq.interference (C.Carrier.time self.now.rule.now.carrier) (C.Carrier.bit self.now.rule.now.carrier) self.now.legs.now self.now.number (member self.now.above.bits) w.time) (2 ^ 64 - 1) }
    {
        // A fold alone: with a filter before it the jumps are foreseen worse.
        self.legs.iter().fold(0, |sum: u64, leg| {
            if self.is_above(*leg) {
                sum.saturating_add(self.rule.demand(*leg, w))
            } else {
                sum
            }
        })
    }

    // The queuing time, where it is at most the leg's deadline: from 0 up, the right side of the equation again and again.
    fn wait(&self, leg: Leg) -> Option<u64>
        ensures value { result ≡ least_solution (eq.queued (C.Carrier.time self.now.rule.now.carrier) (C.Carrier.bit self.now.rule.now.carrier) self.now.legs.now self.now.number (member self.now.above.bits)) leg.message.deadline }
        ensures bound { IfSome result (λ w. w ≤ leg.message.deadline) }
    {
        let blocking = self.rule.blocking(self.legs);
        let mut w: u64 = 0;
        while w <= leg.message.deadline {
            let next = blocking.saturating_add(self.interference(Trial { time: w }));
            if next == w {
                return Some(w);
            }
            w = next;
        }
        None
    }
}

impl<C: Carrier> BusRule for Equation<C> {
    ghost answer = { λ s. eq.equation (C.Carrier.time s.carrier) (C.Carrier.bit s.carrier) };

    ghost bounded = { λ s. equation-bounded (C.Carrier.time s.carrier) (C.Carrier.bit s.carrier) };

    ghost absent = { λ s. equation-absent (C.Carrier.time s.carrier) (C.Carrier.bit s.carrier) };

    ghost shorter = { λ s. equation-shorter (C.Carrier.time s.carrier) (C.Carrier.bit s.carrier) };

    fn delay(&self, legs: &[Leg], number: u8, above: LegSet) -> Option<u64>
        ensures value { result ≡ eq.equation (C.Carrier.time self.now.carrier) (C.Carrier.bit self.now.carrier) legs.now number (member above.bits) }
        ensures least { (leg : Shown) → leg_of legs.now number ≡ Some leg → Exact (eq.queued (C.Carrier.time self.now.carrier) (C.Carrier.bit self.now.carrier) legs.now number (member above.bits)) (eq.ends (C.Carrier.time self.now.carrier) leg) leg.message.deadline result }
    {
        let leg = leg_of(legs, number)?;
        let queue = Queue {
            rule: self,
            legs,
            number,
            above,
        };
        let w = queue.wait(leg)?;
        timely(leg, w + self.rest(leg))
    }
}
