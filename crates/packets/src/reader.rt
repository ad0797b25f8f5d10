// Reading a packet: its facts, or the refusal with the lowest number that applies.
ghost use Rattle.std.specs.Prelude.{◌≡◌, ◌*◌, ◌^◌, ◌<◌, ◌≤◌, true, ◌&&◌, length, nat_le};
ghost use Rattle.packets.specs.Fields.{least_body, pseudo_sum};
ghost use Rattle.packets.specs.Reading.{body_fits, body_right, endpoint_of, facts_of, heading_of, message_of, plain_header, read_of};

use crate::addresses::address_sum;
use crate::facts::{End, Endpoint, Facts, Heading, Parsed, Payload, Reading};
use crate::parts::Parts;
use crate::places::{
    DESTINATION, FRAGMENT, HEADER, ICMP_CODE, ICMP_KIND, PROTOCOL, SOURCE, TCP_OFFSET,
    TOTAL_LENGTH, TTL, UDP_LENGTH, UDP_SUM, VERSION_AND_LENGTH, address_at, port_at,
};
use blocks::refusal::Refusal;
use mappings::event::Protocol;
use sums::words::{long_at, word_at};
use sums::{is_right, word_sum};

// What the packet of these bytes is, or why it is refused.
#[tactic(auto, using(std::proofs::lemmas::Bool::Decides::nat_tests), unfolding(crate::specs::Reading::read_of, crate::specs::Reading::read_as))]
pub fn read(packet: &[u8]) -> Parsed
    ensures { result ≡ read_of packet.now }
{
    let (header, body) = packet.split_first_chunk().ok_or(Refusal::BadHeader)?;
    let payload = Payload::from(header[PROTOCOL]);
    if !is_plain(header, body) || !body_fits(payload, body) {
        return Err(Refusal::BadHeader);
    }
    if !is_right(word_sum(header)) || !is_body_right(payload, header, body) {
        return Err(Refusal::WrongSum);
    }
    match payload {
        Payload::Datagram => Ok(Reading::Packet(facts(Protocol::Udp, Parts { header, body }))),
        Payload::Segment => Ok(Reading::Packet(facts(Protocol::Tcp, Parts { header, body }))),
        Payload::Message => named_message(Parts { header, body }),
        Payload::Other => Err(Refusal::UnknownProtocol),
    }
}

#[tactic(auto, using(std::proofs::lemmas::Bool::Decides::nat_tests), unfolding(crate::specs::Reading::plain_header))]
fn is_plain(header: &[u8; HEADER], body: &[u8]) -> bool
    ensures is { result ≡ plain_header header.now body.now }
    ensures short { result ≡ true → length body.now < 65516 }
{
    header[VERSION_AND_LENGTH] == 0x45
        && usize::from(word_at(header, TOTAL_LENGTH)) == HEADER + body.len()
        && word_at(header, FRAGMENT) % 0x4000 == 0
}

fn body_fits(payload: Payload, body: &[u8]) -> bool
    ensures is { result ≡ body_fits payload body.now }
    ensures long { result ≡ true → least_body payload ≤ length body.now }
{
    match payload {
        Payload::Datagram => body.len() >= 8
            && usize::from(word_at(body, UDP_LENGTH)) == body.len(),
        Payload::Segment => body.len() >= 20 && is_offset_within(body[TCP_OFFSET] / 16, body.len()),
        Payload::Message => body.len() >= 8,
        Payload::Other => true,
    }
}

// Whether a TCP header of so many units of four bytes is whole, and ends within the segment.
fn is_offset_within(offset: u8, length: usize) -> bool
    ensures { result ≡ (nat_le 5 offset && nat_le (4 * offset) length) }
{
    offset >= 5 && 4 * usize::from(offset) <= length
}

// The plain sum of the pseudo-header of a body of `count` bytes. That it is small is said again where it goes on,
// since a sum of 32 bits is only then known to have room for the body's.
pub(crate) fn pseudo_sum(header: &[u8; HEADER], count: u16) -> u32
    ensures is { result ≡ pseudo_sum header.now count }
    ensures small { result < 2 ^ 20 }
{
    let addresses = address_sum(header, End::Source) + address_sum(header, End::Destination);
    addresses + u32::from(header[PROTOCOL]) + u32::from(count)
}

fn is_body_right(payload: Payload, header: &[u8; HEADER], body: &[u8]) -> bool
    requires { (least_body payload ≤ length body.now) × (length body.now < 65516) }
    ensures { result ≡ body_right payload header.now body.now }
{
    match payload {
        Payload::Datagram => word_at(body, UDP_SUM) == 0
            || is_right(pseudo_sum(header, body.len() as u16) + word_sum(body)),
        Payload::Segment => is_right(pseudo_sum(header, body.len() as u16) + word_sum(body)),
        Payload::Message => is_right(word_sum(body)),
        Payload::Other => true,
    }
}

// One end of a packet of this protocol.
pub fn endpoint(protocol: Protocol, end: End, parts: Parts) -> Endpoint
    ensures { result ≡ endpoint_of protocol end parts.entry.header.now parts.entry.body.now }
{
    let Parts { header, body, .. } = parts;
    Endpoint {
        address: long_at(header, address_at(end)),
        port: word_at(body, port_at(protocol, end)),
    }
}

fn facts(protocol: Protocol, parts: Parts) -> Facts
    ensures { result ≡ facts_of protocol parts.entry.header.now parts.entry.body.now }
{
    Facts {
        protocol,
        source: endpoint(protocol, End::Source, parts),
        destination: endpoint(protocol, End::Destination, parts),
        ttl: parts.header[TTL],
    }
}

fn heading(header: &[u8; HEADER]) -> Heading
    ensures { result ≡ heading_of header.now }
{
    Heading {
        source: long_at(header, SOURCE),
        destination: long_at(header, DESTINATION),
        ttl: header[TTL],
    }
}

// Kinds and codes are matched as they stand on the wire, with a refusal for all the rest.
fn named_message(parts: Parts) -> Parsed
    ensures { result ≡ message_of parts.entry.header.now parts.entry.body.now }
{
    let Parts { header, body, .. } = parts;
    match (body[ICMP_KIND], body[ICMP_CODE]) {
        (8 | 0, 0) => Ok(Reading::Packet(facts(Protocol::Echo, parts))),
        (3 | 4 | 11 | 12, _) => Ok(Reading::Error(heading(header))),
        _ => Err(Refusal::UnknownProtocol),
    }
}
