// Input records, whole and damaged in every way.
use records::reader::Reader;

// an input, how many records are read of it, where the reader stands then, and whether a fault stands there
const CASES: [(&[u8], usize, usize, bool); 16] = [
    (&[], 0, 0, false),
    (&[2], 1, 1, false),
    (&[2, 2, 2], 3, 3, false),
    (&[1, 0, 0, 0], 1, 4, false),
    (&[1, 1, 0, 2, 7, 8, 2], 2, 7, false),
    (&[1, 0, 0, 2, 7, 8, 1, 1, 0, 1, 9], 2, 11, false),
    (&[0], 0, 0, true),
    (&[3], 0, 0, true),
    (&[2, 255], 1, 1, true),
    (&[1], 0, 0, true),
    (&[1, 0], 0, 0, true),
    (&[1, 0, 0], 0, 0, true),
    (&[1, 2, 0, 0], 0, 0, true),
    (&[2, 1, 0, 0, 1], 1, 1, true),
    (&[1, 0, 0, 2, 7, 8, 1, 0, 0, 2, 9], 1, 6, true),
    (&[1, 0, 255, 255, 1], 0, 0, true),
];

#[test]
fn read_to_the_end_or_the_fault(rt: HostRuntime) {
    for (input, count, at, faulty) in CASES {
        let mut reader = Reader::new(input);
        let mut seen = 0usize;
        let mut fault = false;
        for _ in 0..4u8 {
            match reader.next() {
                Ok(Some(_)) => seen = seen.saturating_add(1),
                Ok(None) => {}
                Err(_) => fault = true,
            }
        }
        assert_eq!(rt; seen, count);
        assert_eq!(rt; reader.at(), at);
        assert_eq!(rt; fault, faulty);
    }
}
