// Questions, addresses and numbers as they may and may not be written.
use text::address::address;
use text::number::number;
use text::question::Question;

const NUMBERS: [(&str, Option<u64>); 9] = [
    ("0", Some(0)),
    ("7", Some(7)),
    ("18446744073709551615", Some(0xffff_ffff_ffff_ffff)),
    ("18446744073709551616", None),
    ("", None),
    ("+7", None),
    ("-7", None),
    ("07", None),
    ("7 ", None),
];

const ADDRESSES: [(&str, Option<u32>); 9] = [
    ("0.0.0.0", Some(0)),
    ("203.0.113.1", Some(0xcb00_7101)),
    ("255.255.255.255", Some(0xffff_ffff)),
    ("256.0.0.0", None),
    ("1.2.3", None),
    ("1.2.3.4.5", None),
    ("1.2.3.04", None),
    ("1..3.4", None),
    (" 1.2.3.4", None),
];

const QUESTIONS: [(&str, bool); 12] = [
    ("203.0.113.1 1056 moment 0", true),
    ("203.0.113.1 65535 tick 4294967295", true),
    ("203.0.113.1 65535 tick 4294967296", false),
    ("203.0.113.1 65536 tick 1", false),
    ("203.0.113.1 1056 moment 18446744073709551615", true),
    ("203.0.113.1 1056 moment", false),
    ("203.0.113.1 1056 moment 0 ", false),
    ("203.0.113.1  1056 moment 0", false),
    ("203.0.113.1 1056 hour 0", false),
    ("1056 moment 0", false),
    ("", false),
    ("203.0.113.1 1056 moment 0\r", false),
];

#[test]
fn numbers_and_addresses(rt: HostRuntime) {
    for (text, expected) in NUMBERS {
        assert_eq!(rt; number(text), expected);
    }
    for (text, expected) in ADDRESSES {
        assert_eq!(rt; address(text), expected);
    }
}

#[test]
fn questions(rt: HostRuntime) {
    for (text, expected) in QUESTIONS {
        assert_eq!(rt; Question::read(text).is_some(), expected);
    }
    assert!(rt; Question::from_line(&[50, 255]).is_none());
}
