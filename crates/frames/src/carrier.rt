// A carrier: how long a message's frames take on a bus.
ghost use Rattle.std.specs.Prelude.{◌≡◌, ℕ};
ghost use Rattle.bus.specs.Range.{In, payloads, frame_times, bit_times};

use bus::payload::Payload;

pub trait Carrier {
    // the time of a payload, by its bytes
    ghost time: { Self → ℕ → ℕ };

    // the nominal bit time
    ghost bit: { Self → ℕ };

    fn frame_time(&self, payload: Payload) -> u64
        ensures { result ≡ time self.now payload.bytes };

    fn bit_time(&self) -> u64
        ensures { result ≡ bit self.now };

    ghost timed: { (c : Self) (s : ℕ) → In payloads s → In frame_times (time c s) };

    ghost ticks: { (c : Self) → In bit_times (bit c) };
}
