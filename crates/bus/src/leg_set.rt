// A set of the legs of one bus, by their messages' numbers.
ghost use Rattle.std.specs.Prelude.{◌≡◌, ℕ, false, ◌&&◌, ◌||◌, ◌==◌};
ghost use Rattle.bus.specs.Numbered.{member};
ghost use Rattle.bus.specs.Range.{inside, numbers};

// The number k, from 1 to 64, is the bit of value 2^(k-1).
#[derive(Clone, Copy, PartialEq, Eq, Debug)]
pub struct LegSet {
    pub bits: u64,
}

// Whether the set of these bits has the number.
pub(crate) fn has(bits: u64, number: u8) -> bool
    ensures { result ≡ member bits number }
{
    (1..=64).contains(&number) && (bits >> (number - 1)) & 1 == 1
}

impl LegSet {
    pub fn empty() -> LegSet
        ensures { (k : ℕ) → member result.bits k ≡ false }
    {
        LegSet { bits: 0 }
    }

    pub fn contains(self, number: u8) -> bool
        ensures { result ≡ member self.bits number }
    {
        has(self.bits, number)
    }

    // The set and this number; the set alone where no message has the number.
    pub fn with(self, number: u8) -> LegSet
        ensures { (k : ℕ) → member result.bits k ≡ (inside numbers number && k == number || member self.bits k) }
    {
        if !(1..=64).contains(&number) {
            return self;
        }
        LegSet {
            bits: self.bits | 1 << (number - 1),
        }
    }
}
