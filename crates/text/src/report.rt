// What the programs print, as text.
ghost use Rattle.std.specs.Prelude.{◌≡◌, ◌≤◌, length, Some};
ghost use Rattle.text.specs.Reports.{hex_text, line_text, names_text};

use blocks::refusal::Refusal;
use std::{fmt, str};

// A line of a program's output, without its line feed.
#[derive(Clone, Copy, Debug, PartialEq, Eq)]
pub enum Line<'a> {
    // a packet that was refused
    Refused {
        moment: u64,
        cause: Refusal,
    },
    // a packet that leaves: `out`, `in` or `turned`, and all its bytes; a word and no enum, so that callers may give any
    Packet {
        moment: u64,
        way: &'a str,
        packet: &'a [u8],
    },
    // the last line of a run
    End {
        events: u64,
        tick: u32,
        lines: u64,
    },
    // who had a port, if anybody had
    Holder(Option<u16>),
    // all that had a port, in order, with spaces between; `nobody` for none
    Names(&'a [u16]),
    // the cause's number, in place of an answer that only a damaged book could give
    Unknown(Refusal),
    // the most further blocks given at one time, and to how many subscribers
    Count {
        blocks: usize,
        subscribers: usize,
    },
    // a fault in a file
    Fault {
        file: &'a str,
        cause: Refusal,
        byte: usize,
    },
}

impl fmt::Display for Line<'_> {
    ghost output = { λ line. Some (line_text line) };

    fn fmt<W: fmt::Write>(&self, f: &mut fmt::Formatter<W>) -> fmt::Result {
        match *self {
            Line::Refused { moment, cause } => write!(f, "{moment} refused {cause}"),
            Line::Packet {
                moment,
                way,
                packet,
            } => write!(f, "{moment} {way} {}", Hex(packet)),
            Line::End {
                events,
                tick,
                lines,
            } => write!(f, "events {events} tick {tick} lines {lines}"),
            Line::Holder(Some(subscriber)) => write!(f, "{subscriber}"),
            Line::Holder(None) => f.write_str("nobody"),
            Line::Names(names) => f.write(Names(names)),
            Line::Unknown(cause) => write!(f, "fault {cause}"),
            Line::Count {
                blocks,
                subscribers,
            } => write!(f, "blocks {blocks} pitches {subscribers}"),
            Line::Fault { file, cause, byte } => write!(f, "{file}: fault {cause} at byte {byte}"),
        }
    }
}

// Names with spaces between.
#[derive(Clone, Copy, Debug, PartialEq, Eq)]
struct Names<'a>(&'a [u16]);

impl fmt::Display for Names<'_> {
    ghost output = { λ names. Some (names_text names.0.now) };

    fn fmt<W: fmt::Write>(&self, f: &mut fmt::Formatter<W>) -> fmt::Result {
        let [first, rest @ ..] = self.0 else {
            return f.write_str("nobody");
        };
        write!(f, "{first}")?;
        for name in rest {
            write!(f, " {name}")?;
        }
        Ok(())
    }
}

// Bytes in hexadecimal, in lower case.
#[derive(Clone, Copy, Debug, PartialEq, Eq)]
pub struct Hex<'a>(pub &'a [u8]);

// The digits of some bytes, written into `room`.
fn digits<'a>(bytes: &[u8], room: &'a mut [u8; 512]) -> &'a str
    requires { length bytes.now ≤ 256 }
    ensures { result.now ≡ hex_text bytes.now }
{
    let digits = &mut room[..2 * bytes.len()];
    hex::encode_to_slice(bytes, digits).unwrap();
    str::from_utf8(digits).unwrap()
}

impl fmt::Display for Hex<'_> {
    ghost output = { λ bytes. Some (hex_text bytes.0.now) };

    fn fmt<W: fmt::Write>(&self, f: &mut fmt::Formatter<W>) -> fmt::Result {
        // many bytes at a time: with a write for each, a packet takes three times as long
        let mut room = [0; 512];
        for bytes in self.0.chunks(256) {
            f.write_str(digits(bytes, &mut room))?;
        }
        Ok(())
    }
}
