// Delays by the equation rule, bridges and choices.
use bus::bridge::Bridge;
use bus::choice::Choice;
use bus::entry::Entry;
use bus::leg::Leg;
use bus::leg_set::LegSet;
use bus::message::Message;
use bus::rule::BusRule;
use frames::can11::Can11;
use frames::equation::Equation;
use frames::fd::Fd11;
use std::test::Fail;

// Leg of a message of 8 bytes on bus 1: its source leg where source is 1, else a destination leg.
fn leg(number: u64, source: u64, period: u64, deadline: u64, jitter: u64) -> Result<Leg, Fail> {
    let entry = Entry {
        number,
        source,
        destinations: if source == 1 { 0 } else { 1 },
        payload: 8,
        period,
        deadline,
        jitter,
    };
    let leg = Message::try_from(entry)?
        .leg_on(1)
        .ok_or("the message has no leg on bus 1")?;
    Ok(leg)
}

fn can11() -> Result<Equation<Can11>, Fail> {
    Ok(Equation {
        carrier: Can11::new(2000)?,
    })
}

// One nanosecond more of jitter lets a second frame go before.
#[test]
fn jitter_and_bit_time_in_the_ceiling(rt: HostRuntime) -> Result<(), Fail> {
    let rule = can11()?;
    let above = LegSet::empty().with(1);
    for (jitter, expected) in [(458_000, 810_000), (458_001, 1_080_000)] {
        let legs = [
            leg(1, 1, 1_000_000, 1_000_000, jitter)?,
            leg(2, 1, 2_000_000, 2_000_000, 0)?,
        ];
        assert_eq!(rt; rule.delay(&legs, 2, above), Some(expected));
    }
    Ok(())
}

#[test]
fn within_the_deadline_to_the_nanosecond(rt: HostRuntime) -> Result<(), Fail> {
    let rule = can11()?;
    let above = LegSet::empty().with(1);
    for (deadline, expected) in [(810_000, Some(810_000)), (809_999, None), (1, None)] {
        let legs = [
            leg(1, 1, 1_000_000, 1_000_000, 458_000)?,
            leg(2, 1, 2_000_000, deadline, 0)?,
        ];
        assert_eq!(rt; rule.delay(&legs, 2, above), expected);
    }
    Ok(())
}

// Above, a destination leg counts with the jitter D - C; its own delay has no jitter.
#[test]
fn destination_legs(rt: HostRuntime) -> Result<(), Fail> {
    let rule = can11()?;
    let legs = [
        leg(1, 2, 1_000_000, 1_000_000, 5000)?,
        leg(2, 1, 2_000_000, 2_000_000, 0)?,
    ];
    assert_eq!(rt;
        rule.delay(&legs, 2, LegSet::empty().with(1)),
        Some(1_080_000),
        "D - C is 730,000"
    );
    assert_eq!(rt; rule.delay(&legs, 1, LegSet::empty()), Some(540_000));
    Ok(())
}

// The longest frame blocks, the leg's own among them; what is no other leg of the bus counts for nothing.
#[test]
fn blocking_and_strangers(rt: HostRuntime) -> Result<(), Fail> {
    let rule = can11()?;
    let legs = [leg(1, 1, 1_000_000, 1_000_000, 0)?];
    let strangers = LegSet::empty().with(1).with(9).with(64);
    assert_eq!(rt; rule.delay(&legs, 1, LegSet::empty()), Some(540_000));
    assert_eq!(rt; rule.delay(&legs, 1, strangers), Some(540_000));
    assert_eq!(rt; rule.delay(&legs, 2, strangers), None, "not on the bus");
    assert_eq!(rt; rule.delay(&legs, 0, strangers), None);
    Ok(())
}

#[test]
fn bridges_and_choices(rt: HostRuntime) -> Result<(), Fail> {
    let legs = [leg(1, 1, 1_000_000, 541_000, 0)?];
    for (extra, expected) in [(0, Some(540_000)), (1000, Some(541_000)), (1001, None)] {
        let bridge = Bridge::new(can11()?, extra)?;
        let pile: Choice<Equation<Fd11>, Bridge<Equation<Can11>>> = Choice::Second(bridge);
        assert_eq!(rt; pile.delay(&legs, 1, LegSet::empty()), expected);
    }
    assert!(rt; Bridge::new(can11()?, 1_000_000_000).is_ok());
    assert!(rt; Bridge::new(can11()?, 1_000_000_001).is_err());
    Ok(())
}
