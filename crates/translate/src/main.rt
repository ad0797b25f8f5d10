// Reads cases as lines of hexadecimal digits and prints what is read from each packet, and the packet as it is written both ways.
// A line is an external address and port, an internal address and port, and a packet; one that begins with '#' is printed as it stands.
#![tactic(auto)]

use mappings::event::Protocol;
use packets::facts::{End, Endpoint, Parsed, Reading, Relocation};
use packets::reader::read;
use packets::writer::write;
use std::alloc::{AllocError, Global};
use std::io::{BufRead, BufReader};
use std::net::{Ipv4Addr, SocketAddrV4};
use std::{fmt, io};
use sums::words::{long_at, word_at};
use text::report::Hex;

// Only these are digits: `hex::decode` takes upper case too, and refuses what is passed over here.
fn digit(b: u8) -> Option<u8> {
    match b {
        b'0'..=b'9' => Some(b - b'0'),
        b'a'..=b'f' => Some(b - b'a' + 10),
        _ => None,
    }
}

fn joined(high: u8, low: u8) -> u8 {
    high % 16 * 16 + low % 16
}

// The bytes that the digits of `text` stand for; what is no digit is passed over.
fn bytes_of(heap: Global, text: &str) -> Result<Vec<u8>, AllocError> {
    let mut bytes = Vec::new(heap);
    let mut high = None;
    for low in text.bytes().filter_map(digit) {
        high = match high {
            None => Some(low),
            Some(h) => {
                bytes.push(joined(h, low))?;
                None
            }
        };
    }
    Ok(bytes)
}

#[derive(Clone, Copy, Debug, PartialEq, Eq)]
struct Case<'a> {
    external: Endpoint,
    internal: Endpoint,
    packet: &'a [u8],
}

fn endpoint_of(bytes: &[u8; 6]) -> Endpoint {
    Endpoint {
        address: long_at(bytes, 0),
        port: word_at(bytes, 4),
    }
}

fn case_of(bytes: &[u8]) -> Option<Case> {
    let (external, rest) = bytes.split_first_chunk()?;
    let (internal, packet) = rest.split_first_chunk()?;
    Some(Case {
        external: endpoint_of(external),
        internal: endpoint_of(internal),
        packet,
    })
}

// The packet as it is written, if it is one.
fn translated(
    heap: Global,
    packet: &[u8],
    relocation: Relocation,
) -> Result<Option<Vec<u8>>, AllocError> {
    let Ok(Reading::Packet(facts)) = read(packet) else {
        return Ok(None);
    };
    let mut out = packet.to_vec(heap)?;
    write(out.as_mut_slice(), facts, relocation);
    Ok(Some(out))
}

// In lower case, which a derived `Debug` is not.
fn name(protocol: Protocol) -> &'static str {
    match protocol {
        Protocol::Udp => "udp",
        Protocol::Tcp => "tcp",
        Protocol::Echo => "echo",
    }
}

fn socket(endpoint: Endpoint) -> SocketAddrV4 {
    SocketAddrV4::new(Ipv4Addr::from_bits(endpoint.address), endpoint.port)
}

// What is printed of what was read.
#[derive(Clone, Copy, Debug, PartialEq, Eq)]
struct Line(Parsed);

impl fmt::Display for Line {
    fn fmt<W: fmt::Write>(&self, f: &mut fmt::Formatter<W>) -> fmt::Result {
        match self.0 {
            Ok(Reading::Packet(facts)) => {
                let name = name(facts.protocol);
                let source = socket(facts.source);
                let destination = socket(facts.destination);
                let ttl = facts.ttl;
                write!(f, "{name} {source} > {destination} ttl {ttl}")
            }
            Ok(Reading::Error(heading)) => {
                let source = Ipv4Addr::from_bits(heading.source);
                let destination = Ipv4Addr::from_bits(heading.destination);
                let ttl = heading.ttl;
                write!(f, "error {source} > {destination} ttl {ttl}")
            }
            Err(cause) => write!(f, "refused {cause}"),
        }
    }
}

fn admitted(packet: &[u8]) -> Parsed {
    read(packet)?.admit()
}

// The lines that are printed for a case.
fn answer(heap: Global, bytes: &[u8]) -> Result<String, AllocError> {
    let Some(case) = case_of(bytes) else {
        return String::from_str(heap, "too short");
    };
    let line = Line(admitted(case.packet));
    let mut text = format!(in heap; "{line}")?;
    let ways = [
        ("out", End::Source, case.external),
        ("in", End::Destination, case.internal),
    ];
    for (way, end, endpoint) in ways {
        let relocation = Relocation {
            end,
            endpoint,
            hops: 1,
        };
        if let Some(out) = translated(heap, case.packet, relocation)? {
            let digits = Hex(out.as_slice());
            text.push_str(format!(in heap; "\n{way} {digits}")?.as_str())?;
        }
    }
    Ok(text)
}

fn main(rt: HostRuntime) -> io::Result<()> {
    let heap = rt.alloc();
    for line in BufReader::new(heap, rt.stdin())?.lines(heap) {
        let line = line?;
        if line.as_str().starts_with('#') {
            rt.println(line.as_str())?;
            continue;
        }
        let case = bytes_of(heap, line.as_str())?;
        rt.println(answer(heap, case.as_slice())?.as_str())?;
    }
    Ok(())
}
