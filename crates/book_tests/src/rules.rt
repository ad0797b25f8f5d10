// Lines that break one rule each, behind lines that follow one another.
use crate::reading::fault_in;
use blocks::refusal::Refusal;
use book::line::line_bytes;
use book::reading::Fault;
use mappings::line::{Change, Line};
use std::alloc::Global;
use std::process::Abort;
use std::test::Fail;

const fn line(change: Change, moment: u64, tick: u32, block: u16, subscriber: u16) -> Line {
    Line {
        change,
        moment,
        tick,
        block,
        subscriber,
    }
}

const fn given(moment: u64, tick: u32, block: u16, subscriber: u16) -> Line {
    line(Change::Given, moment, tick, block, subscriber)
}

const fn taken(moment: u64, tick: u32, block: u16, subscriber: u16) -> Line {
    line(Change::TakenBack, moment, tick, block, subscriber)
}

// The fault at which the reading of these lines stops.
fn fault_in_lines(heap: Global, lines: &[Line]) -> Result<Option<Fault>, Fail> {
    let mut bytes = Vec::new(heap);
    for line in lines {
        bytes.extend_from_slice(&line_bytes(line))?;
    }
    fault_in(heap, bytes.as_slice())
}

fn refused(
    rt: &impl Abort,
    heap: Global,
    lines: &[Line],
    byte: usize,
    rule: &str,
) -> Result<(), Fail> {
    let fault = Fault {
        cause: Refusal::CannotFollow,
        byte,
    };
    assert_eq!(rt; fault_in_lines(heap, lines)?, Some(fault), "{rule}");
    Ok(())
}

fn accepted(rt: &impl Abort, heap: Global, lines: &[Line]) -> Result<(), Fail> {
    assert!(rt; fault_in_lines(heap, lines)?.is_none());
    Ok(())
}

#[test]
fn givings(rt: HostRuntime) -> Result<(), Fail> {
    let heap = rt.alloc();
    let first = given(16, 0, 8, 2);
    accepted(&rt, heap, &[first, given(17, 0, 9, 2)])?;
    accepted(&rt, heap, &[first, given(30, 12, 9, 2)])?;
    refused(&rt, heap, &[given(u64::MAX, 0, 8, 2)], 0, "the last moment")?;
    refused(
        &rt,
        heap,
        &[first, given(16, 0, 9, 2)],
        17,
        "the same moment",
    )?;
    refused(
        &rt,
        heap,
        &[given(20, 4, 8, 2), given(30, 3, 9, 2)],
        17,
        "an earlier tick",
    )?;
    refused(
        &rt,
        heap,
        &[first, given(30, 14, 9, 2)],
        17,
        "more ticks than events",
    )?;
    refused(
        &rt,
        heap,
        &[first, given(30, 0, 10, 2)],
        17,
        "not the lowest block",
    )?;
    refused(
        &rt,
        heap,
        &[first, given(30, 0, 8, 3)],
        17,
        "a block that is given",
    )?;
    refused(&rt, heap, &[given(30, 0, 8, 8)], 0, "no subscriber")?;
    refused(
        &rt,
        heap,
        &[first, given(17, 0, 9, 2), given(18, 0, 10, 2)],
        34,
        "more than it may have",
    )
}

#[test]
fn takings_back(rt: HostRuntime) -> Result<(), Fail> {
    let heap = rt.alloc();
    let first = given(16, 0, 8, 2);
    let second = given(17, 0, 9, 3);
    accepted(
        &rt,
        heap,
        &[first, second, taken(900, 181, 8, 2), taken(900, 181, 9, 3)],
    )?;
    accepted(
        &rt,
        heap,
        &[first, second, taken(900, 181, 8, 2), taken(901, 182, 9, 3)],
    )?;
    refused(
        &rt,
        heap,
        &[first, taken(900, 181, 8, 3)],
        17,
        "another's block",
    )?;
    refused(
        &rt,
        heap,
        &[first, taken(900, 181, 9, 2)],
        17,
        "nobody's block",
    )?;
    refused(&rt, heap, &[first, taken(900, 180, 8, 2)], 17, "too early")?;
    refused(
        &rt,
        heap,
        &[first, taken(16, 181, 8, 2)],
        17,
        "the same moment as a giving",
    )?;
    refused(
        &rt,
        heap,
        &[first, taken(196, 181, 8, 2)],
        17,
        "more ticks than events",
    )?;
    refused(
        &rt,
        heap,
        &[first, second, taken(900, 181, 9, 3), taken(900, 181, 8, 2)],
        51,
        "a lower block",
    )?;
    refused(
        &rt,
        heap,
        &[first, second, taken(900, 181, 8, 2), taken(901, 181, 9, 3)],
        51,
        "two ticks of one number",
    )?;
    refused(
        &rt,
        heap,
        &[first, second, taken(900, 181, 8, 2), taken(900, 182, 9, 3)],
        51,
        "one event, two ticks",
    )
}
