// Frame times and the edges of the bit times.
use bus::payload::Payload;
use bus::refusal::Refusal;
use frames::can11::Can11;
use frames::can29::Can29;
use frames::carrier::Carrier;
use frames::fd::Fd11;
use std::test::Fail;

// bytes, then the times on can11, can29 and fd11 with a bit time of 2000 ns, and 500 ns in the data phase
const TIMES: [(u8, [u64; 3]); 10] = [
    (0, [110_000, 160_000, 84_500]),
    (1, [130_000, 180_000, 89_500]),
    (8, [270_000, 320_000, 124_500]),
    (9, [400_000, 500_000, 144_500]),
    (12, [460_000, 560_000, 144_500]),
    (16, [540_000, 640_000, 164_500]),
    (17, [670_000, 820_000, 187_000]),
    (33, [1_210_000, 1_460_000, 327_000]),
    (63, [2_140_000, 2_540_000, 407_000]),
    (64, [2_160_000, 2_560_000, 407_000]),
];

#[test]
fn times_of_payloads(rt: HostRuntime) -> Result<(), Fail> {
    let can11 = Can11::new(2000)?;
    let can29 = Can29::new(2000)?;
    let fd11 = Fd11::new(2000, 500)?;
    for (bytes, expected) in TIMES {
        assert!(rt; bytes <= 64);
        let payload = Payload { bytes };
        let times = [
            can11.frame_time(payload),
            can29.frame_time(payload),
            fd11.frame_time(payload),
        ];
        assert_eq!(rt; times, expected, "{bytes} bytes");
    }
    Ok(())
}

// a bit time, and whether it is in range
const BIT_TIMES: [(u64, bool); 6] = [
    (0, false),
    (49, false),
    (50, true),
    (100_000, true),
    (100_001, false),
    (u64::MAX, false),
];

#[test]
fn edges_of_bit_times(rt: HostRuntime) {
    for (bit, fine) in BIT_TIMES {
        let made = [
            Can11::new(bit).is_ok(),
            Can29::new(bit).is_ok(),
            Fd11::new(bit, 50).is_ok(),
        ];
        assert_eq!(rt; made, [fine; 3], "{bit} ns");
    }
    assert_eq!(rt; Can11::new(49), Err(Refusal::Range));
}

// nominal and data bit time, and whether they are in range
const DATA_TIMES: [(u64, u64, bool); 6] = [
    (2000, 49, false),
    (2000, 50, true),
    (2000, 2000, true),
    (2000, 2001, false),
    (50, 50, true),
    (100_000, 100_001, false),
];

#[test]
fn edges_of_data_bit_times(rt: HostRuntime) {
    for (nominal, fast, fine) in DATA_TIMES {
        assert_eq!(rt; Fd11::new(nominal, fast).is_ok(), fine);
    }
}

#[test]
fn longest_frames_at_the_slowest_bit_time(rt: HostRuntime) -> Result<(), Fail> {
    let payload = Payload { bytes: 64 };
    assert_eq!(rt; Can29::new(100_000)?.frame_time(payload), 128_000_000);
    assert_eq!(rt; Can11::new(100_000)?.bit_time(), 100_000);
    Ok(())
}
