// The messages of a small trailer with two buses.
use anyhow::Context;
use bus::entry::Entry;
use bus::message::Message;
use std::alloc::Global;

const TABLE: [Entry; 8] = [
    Entry {
        number: 1,
        source: 1,
        destinations: 0,
        payload: 8,
        period: 5_000_000,
        deadline: 2_000_000,
        jitter: 100_000,
    },
    Entry {
        number: 2,
        source: 1,
        destinations: 0,
        payload: 4,
        period: 10_000_000,
        deadline: 1_500_000,
        jitter: 0,
    },
    Entry {
        number: 3,
        source: 1,
        destinations: 2,
        payload: 8,
        period: 10_000_000,
        deadline: 4_000_000,
        jitter: 0,
    },
    Entry {
        number: 4,
        source: 1,
        destinations: 2,
        payload: 20,
        period: 50_000_000,
        deadline: 9_000_000,
        jitter: 200_000,
    },
    Entry {
        number: 5,
        source: 2,
        destinations: 1,
        payload: 12,
        period: 20_000_000,
        deadline: 6_000_000,
        jitter: 0,
    },
    Entry {
        number: 6,
        source: 2,
        destinations: 0,
        payload: 64,
        period: 10_000_000,
        deadline: 2_000_000,
        jitter: 50_000,
    },
    Entry {
        number: 7,
        source: 2,
        destinations: 0,
        payload: 32,
        period: 5_000_000,
        deadline: 1_000_000,
        jitter: 0,
    },
    Entry {
        number: 8,
        source: 2,
        destinations: 1,
        payload: 0,
        period: 100_000_000,
        deadline: 10_000_000,
        jitter: 0,
    },
];

pub(crate) fn messages(heap: Global) -> anyhow::Result<Vec<Message>> {
    TABLE
        .into_iter()
        .map(|entry| Message::try_from(entry).context("a message of the trailer is refused"))
        .try_collect(heap)
}
