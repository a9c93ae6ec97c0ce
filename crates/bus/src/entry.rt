// What a caller gives to make a message: plain numbers, of any value.
#[derive(Clone, Copy, PartialEq, Eq, Debug)]
pub struct Entry {
    pub number: u64,
    pub source: u64,
    // a set of buses as eight bits, bus k at the value 2^(k-1)
    pub destinations: u8,
    pub payload: u64,
    pub period: u64,
    pub deadline: u64,
    pub jitter: u64,
}
