// The edges of a message's values, its legs, and sets of legs.
use bus::entry::Entry;
use bus::leg_set::LegSet;
use bus::message::Message;
use bus::refusal::Refusal;
use std::test::Fail;

// A message with all values inside their ranges.
fn plain() -> Entry {
    Entry {
        number: 7,
        source: 1,
        destinations: 6,
        payload: 8,
        period: 1_000_000,
        deadline: 500_000,
        jitter: 1000,
    }
}

// The refusal's number, 0 where the message is made. By number, as the rules say what is refused.
fn outcome(entry: Entry) -> u8 {
    Message::try_from(entry)
        .err()
        .map_or(0, |refusal| refusal.number())
}

#[test]
fn edges_of_numbers_and_buses(rt: HostRuntime) {
    for (number, expected) in [(0, 3), (1, 0), (64, 0), (65, 3), (u64::MAX, 3)] {
        assert_eq!(rt; outcome(Entry { number, ..plain() }), expected, "number");
    }
    for (source, expected) in [
        (0, 3),
        (1, 0),
        (2, 5),
        (3, 5),
        (4, 0),
        (8, 0),
        (9, 3),
        (257, 3),
    ] {
        assert_eq!(rt; outcome(Entry { source, ..plain() }), expected, "source");
    }
    for (destinations, expected) in [(0, 0), (1, 5), (2, 0), (254, 0), (255, 5)] {
        assert_eq!(rt;
            outcome(Entry {
                destinations,
                ..plain()
            }),
            expected,
            "destinations"
        );
    }
}

#[test]
fn edges_of_payload_and_times(rt: HostRuntime) {
    for (payload, expected) in [(0, 0), (64, 0), (65, 3)] {
        assert_eq!(rt; outcome(Entry { payload, ..plain() }), expected, "payload");
    }
    for (period, expected) in [
        (99_999, 3),
        (500_000, 0),
        (499_999, 3),
        (10_000_000_000, 0),
        (10_000_000_001, 3),
    ] {
        assert_eq!(rt; outcome(Entry { period, ..plain() }), expected, "period");
    }
    for (deadline, expected) in [(0, 3), (999, 3), (1000, 0), (1_000_000, 0), (1_000_001, 3)] {
        assert_eq!(rt;
            outcome(Entry {
                deadline,
                ..plain()
            }),
            expected,
            "deadline"
        );
    }
    for (jitter, expected) in [(0, 0), (500_000, 0), (500_001, 3)] {
        assert_eq!(rt; outcome(Entry { jitter, ..plain() }), expected, "jitter");
    }
}

// A range comes before the source among the destinations.
#[test]
fn smallest_number_first(rt: HostRuntime) {
    assert_eq!(rt;
        outcome(Entry {
            destinations: 1,
            jitter: 500_001,
            ..plain()
        }),
        3
    );
}

#[test]
fn legs_by_bus(rt: HostRuntime) -> Result<(), Fail> {
    let message = Message::try_from(plain())?;
    for (bus, source) in [
        (0, None),
        (1, Some(true)),
        (2, Some(false)),
        (3, Some(false)),
        (4, None),
        (9, None),
    ] {
        assert_eq!(rt;
            message.leg_on(bus).map(|leg| leg.source),
            source,
            "bus {bus}"
        );
    }
    Ok(())
}

#[test]
fn sets_of_legs(rt: HostRuntime) {
    let set = LegSet::empty().with(1).with(64).with(0).with(65);
    for (number, inside) in [
        (0, false),
        (1, true),
        (2, false),
        (63, false),
        (64, true),
        (65, false),
        (255, false),
    ] {
        assert_eq!(rt; set.contains(number), inside);
    }
}

#[test]
fn numbers_of_refusals(rt: HostRuntime) {
    assert_eq!(rt; Refusal::Form.number(), 1);
    assert_eq!(rt; Refusal::WrongRows.number(), 11);
}
