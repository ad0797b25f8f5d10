// A reader of the input's records, to its end or its first fault.
ghost use Rattle.std.specs.Prelude.{◌≡◌, ◌+◌, ◌≤◌, length, drop, IfErr, IfSome};
ghost use Rattle.records.specs.Readers.{Advances, Short, ShortFront, ShortRecord, cause_in, front_of, items_of, packet_of, told};
ghost use Rattle.records.specs.Records.{front, front_packet, taken};

use crate::record::{Record, Side};
use blocks::bytes::u16_at;
use blocks::refusal::Refusal;

// The packet at the front and how many bytes it takes, unless it is damaged.
fn packet<'a>(rest: &'a [u8]) -> Option<(Record<'a>, usize)>
    ensures is { packet_of result ≡ front_packet rest.now }
    ensures short { IfSome result (λ found. ShortRecord found.0) }
{
    let [1, side, ..] = rest else {
        return None;
    };
    let side = Side::try_from(*side).ok()?;
    let length = usize::from(u16_at(rest, 2)?);
    let bytes = rest.get(4..4 + length)?;
    Some((Record::Packet { side, bytes }, 4 + length))
}

// The record at the front and how many bytes it takes, or nothing at the end.
fn record_in<'a>(rest: &'a [u8]) -> Result<Option<(Record<'a>, usize)>, Refusal>
    ensures is { front_of result ≡ front rest.now }
    ensures cause { IfErr result (λ cause. cause ≡ Refusal.Malformed) }
    ensures short { ShortFront result }
{
    match rest {
        [] => Ok(None),
        [2, ..] => Ok(Some((Record::Tick, 1))),
        _ => Ok(Some(packet(rest).ok_or(Refusal::Malformed)?)),
    }
}

#[derive(Debug, Drop)]
pub struct Reader<'a> {
    input: &'a [u8],
    at: usize,
    ghost within: { at ≤ length input.now },
}

impl<'a> Reader<'a> {
    // A reader that stands before the first record.
    pub fn new(input: &'a [u8]) -> Reader<'a>
        ensures { (result.input.now ≡ input.now) × (result.at ≡ 0) }
    {
        Reader { input, at: 0 }
    }

    // How many bytes have been read: where the next record begins, or the fault.
    pub fn at(&self) -> usize
        ensures { result ≡ self.now.at }
    {
        self.at
    }

    // Why the next record cannot be read, if it is damaged.
    pub fn fault(&self) -> Option<Refusal>
        ensures { result ≡ cause_in (front (drop self.now.at self.now.input.now)) }
    {
        record_in(&self.input[self.at..]).err()
    }

    // The next record, nothing at the end, or `Malformed` where the record is damaged; then the reader stays before it.
    pub fn next(&mut self) -> Result<Option<Record<'a>>, Refusal>
        ensures input { self.new.input.now ≡ self.old.input.now }
        ensures answer { items_of result ≡ told (front (drop self.old.at self.old.input.now)) }
        ensures stands { self.new.at ≡ self.old.at + taken (front (drop self.old.at self.old.input.now)) }
        ensures advances { Advances result self.old.at self.new.at }
        ensures short { Short result }
    {
        // the project's form for a reader's answer: taken apart by `let .. else`
        let Some((record, taken)) = record_in(&self.input[self.at..])? else {
            return Ok(None);
        };
        self.at += taken;
        Ok(Some(record))
    }
}
