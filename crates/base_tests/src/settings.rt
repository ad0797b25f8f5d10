// Settings at each of their limits, and cut at each of their bytes.
use blocks::refusal::Refusal;
use blocks::settings::Settings;

// The numbers of refusals stand here as programs print them, so that `number` is tested with the rest.
// external and internal address, subscribers, block size, further blocks, life, rest, and the refusal's number where they are refused
const CASES: [(u32, u32, u16, u16, u8, u16, u16, Option<u8>); 27] = [
    (1, 10, 8, 16, 4, 120, 60, None),
    (1, 10, 0, 16, 0, 120, 1, None),
    (1, 10, 4032, 16, 4, 120, 1, None),
    (1, 10, 4033, 16, 4, 120, 1, Some(2)),
    (1, 10, 63, 1024, 4, 120, 1, None),
    (1, 10, 64, 1024, 4, 120, 1, Some(2)),
    (1, 10, 126, 512, 4, 120, 1, None),
    (1, 10, 127, 512, 4, 120, 1, Some(2)),
    (1, 10, 8, 0, 4, 120, 60, Some(2)),
    (1, 10, 8, 8, 4, 120, 60, Some(2)),
    (1, 10, 8, 15, 4, 120, 60, Some(2)),
    (1, 10, 8, 32, 4, 120, 60, None),
    (1, 10, 8, 48, 4, 120, 60, Some(2)),
    (1, 10, 8, 2048, 4, 120, 60, Some(2)),
    (1, 10, 8, 16, 5, 120, 60, Some(2)),
    (1, 10, 8, 16, 4, 119, 60, Some(2)),
    (1, 10, 8, 16, 4, 65535, 65535, None),
    (1, 10, 8, 16, 4, 120, 0, Some(2)),
    (9, 10, 8, 16, 4, 120, 60, None),
    (10, 10, 8, 16, 4, 120, 60, Some(2)),
    (17, 10, 8, 16, 4, 120, 60, Some(2)),
    (18, 10, 8, 16, 4, 120, 60, None),
    (10, 10, 0, 16, 4, 120, 60, None),
    (1, 0xffff_fff8, 8, 16, 4, 120, 60, None),
    (1, 0xffff_fff9, 8, 16, 4, 120, 60, Some(2)),
    (1, 0xffff_ffff, 1, 16, 4, 120, 60, None),
    (0xffff_ffff, 0xffff_ffff, 1, 16, 4, 120, 60, Some(2)),
];

#[test]
fn each_limit(rt: HostRuntime) {
    for (external, internal, subscribers, size, further, life, rest, expected) in CASES {
        let made = Settings::new(external, internal, subscribers, size, further, life, rest);
        assert_eq!(rt; made.err().map(Refusal::number), expected);
    }
}

// 203.0.113.1, 10.0.0.0, 8 subscribers, 16 ports, 4 further blocks, 120 and 60 ticks, and one byte too many
const BYTES: [u8; 18] = [
    203, 0, 113, 1, 10, 0, 0, 0, 0, 8, 0, 16, 4, 0, 120, 0, 60, 0,
];

#[test]
fn each_length(rt: HostRuntime) {
    for length in 0..=BYTES.len() {
        let refusal = Settings::read(&BYTES[..length]).err();
        let expected = if length == 17 { None } else { Some(1) };
        assert_eq!(rt; refusal.map(Refusal::number), expected);
    }
}
