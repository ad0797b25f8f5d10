// One line of a book, cut and bent at each of its bytes.
use crate::reading::fault_in;
use blocks::refusal::Refusal;
use book::line::{front_line, line_bytes};
use std::alloc::Global;
use std::test::Fail;

// the further block 8 is given to subscriber 2 at the moment 16, in tick 0
const LINE: [u8; 17] = [16, 0, 0, 0, 0, 0, 0, 0, 16, 0, 0, 0, 0, 0, 8, 0, 2];

fn cause_in(heap: Global, bytes: &[u8]) -> Result<Option<Refusal>, Fail> {
    Ok(fault_in(heap, bytes)?.map(|fault| fault.cause))
}

#[test]
fn cut_at_each_byte(rt: HostRuntime) -> Result<(), Fail> {
    assert!(rt; cause_in(rt.alloc(), &LINE)?.is_none());
    assert!(rt; cause_in(rt.alloc(), &[])?.is_none());
    for n in 1..17usize {
        assert_eq!(rt;
            cause_in(rt.alloc(), &LINE[0..n])?,
            Some(Refusal::Malformed)
        );
    }
    Ok(())
}

// what a byte is changed into, and what is then found: nothing where the line still follows
const BENT: [(usize, u8, Option<Refusal>); 17] = [
    (0, 18, Some(Refusal::Malformed)),
    (1, 1, None),
    (2, 1, None),
    (3, 1, None),
    (4, 1, None),
    (5, 1, None),
    (6, 1, None),
    (7, 1, None),
    (8, 17, None),
    (9, 1, Some(Refusal::CannotFollow)),
    (10, 1, Some(Refusal::CannotFollow)),
    (11, 1, Some(Refusal::CannotFollow)),
    (12, 17, Some(Refusal::CannotFollow)),
    (13, 1, Some(Refusal::CannotFollow)),
    (14, 9, Some(Refusal::CannotFollow)),
    (15, 1, Some(Refusal::CannotFollow)),
    (16, 8, Some(Refusal::CannotFollow)),
];

#[test]
fn bent_at_each_byte(rt: HostRuntime) -> Result<(), Fail> {
    for (place, byte, cause) in BENT {
        let mut line = LINE;
        assert!(rt; place < 17);
        line[place] = byte;
        assert_eq!(rt; cause_in(rt.alloc(), &line)?, cause);
    }
    Ok(())
}

#[test]
fn written_as_read(rt: HostRuntime) -> Result<(), Fail> {
    let Some(line) = front_line(&LINE) else {
        return Err(Fail::new("no line"));
    };
    assert_eq!(rt; line_bytes(&line), LINE);
    Ok(())
}
