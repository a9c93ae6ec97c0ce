// The rows that callers lend.

// A row that list fills, one for each leg.
#[derive(Clone, Copy, Default, PartialEq, Eq, Debug)]
pub struct Row {
    pub bus: u8,
    // 1 is the highest
    pub rank: u8,
    pub message: u8,
    pub delay: u64,
}

// A row of an order that check reads: by bus, and then from the highest rank down.
#[derive(Clone, Copy, PartialEq, Eq, Debug)]
pub struct Spot {
    pub bus: u8,
    pub message: u8,
}

// A row that check fills, one for each local message and each pair. Callers lend such rows, and their form is fixed: destination 0 for a local
// message, and a mark beside a margin of -1 where a leg is over, so that every row has a number and only late ones have one below zero.
#[derive(Clone, Copy, Default, PartialEq, Eq, Debug)]
pub struct Margin {
    pub message: u8,
    // 0 for a local message
    pub destination: u8,
    // the deadline less the delay, or less the pair's sum; -1 where a leg is over
    pub margin: i64,
    pub over: bool,
}
