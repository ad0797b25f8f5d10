// Writing the packet that leaves, in place: every new sum is worked out from the old one and what changed.
ghost use Rattle.std.specs.Prelude.{◌↔◌, All, IsTrue, ◌≡◌, ◌+◌, ◌^◌, ◌<◌, ◌≤◌, true, false, ◌&&◌, length, Ok, ◌==◌};
ghost use Rattle.packets.specs.Fields.{sum_at, version_and_length};
ghost use Rattle.packets.specs.Reading.{read_of};
ghost use Rattle.packets.specs.Writing.{Besides, besides, has_no_sum, is_absent, is_spelled_out, least_of, respelled, sent, sent_body, sent_header};
ghost use Rattle.packets.specs.declared.facts.Reading.TheVariants.{Packet};
ghost use Rattle.sums.specs.Sums.{right};
ghost use Rattle.sums.specs.Words.{put_word, word_sum};

use crate::addresses::{address_sum, halves};
use crate::facts::{Facts, Relocation};
use crate::places::{HEADER, HEADER_SUM, TOTAL_LENGTH, TTL, address_at, port_at, sum_at};
use crate::reader::pseudo_sum;
use mappings::event::Protocol;
use sums::move_sum;
use sums::words::{put_long, put_word, word_at};

// Writes the packet that leaves. The packet is one that was read, so that its lengths are known and its sums are right.
pub fn write(packet: &mut [u8], facts: Facts, relocation: Relocation)
    requires { read_of packet.old ≡ Ok (Packet facts) }
    ensures { packet.new ≡ sent relocation.hops facts.protocol relocation.end relocation.endpoint packet.old }
{
    let (header, body) = packet.split_first_chunk_mut().unwrap();
    let count = word_at(header, TOTAL_LENGTH) - HEADER as u16;
    let before = sum_besides(facts.protocol, header, count);
    write_header(header, relocation);
    let after = sum_besides(facts.protocol, header, count);
    write_body(body, facts.protocol, relocation, before, after);
}

// What counts in a body's sum besides the body itself; small, as the pseudo-header's.
fn sum_besides(protocol: Protocol, header: &[u8; HEADER], count: u16) -> u32
    ensures is { result ≡ besides protocol header.now count }
    ensures small { result < 2 ^ 20 }
{
    match protocol {
        Protocol::Udp | Protocol::Tcp => pseudo_sum(header, count),
        Protocol::Echo => 0,
    }
}

// A header whose sum is right, with one address replaced and the time to live less by some hops.
pub fn write_header(header: &mut [u8; HEADER], relocation: Relocation)
    requires version { version_and_length header.old ≡ 0x45 }
    requires sum { right (word_sum header.old) ≡ true }
    ensures { header.new ≡ sent_header relocation.hops relocation.end relocation.endpoint.address header.old }
{
    let address = relocation.endpoint.address;
    let ttl = header[TTL].saturating_sub(relocation.hops);
    let gone = u32::from(header[TTL]) * 256 + address_sum(header, relocation.end);
    let new = u32::from(ttl) * 256 + halves(address);
    header[TTL] = ttl;
    put_long(header, address_at(relocation.end), address);
    let sum = move_sum(word_at(header, HEADER_SUM), gone, new);
    put_word(header, HEADER_SUM, sum);
}

// `before` and `after` are what counts in the body's sum besides the body, before and after the header was written.
fn write_body(body: &mut [u8], protocol: Protocol, relocation: Relocation, before: u32, after: u32)
    requires long { least_of protocol ≤ length body.old }
    requires small { (before < 2 ^ 20) × (after < 2 ^ 20) }
    requires besides { Besides protocol after }
    requires sum { has_no_sum protocol body.old ≡ false → right (before + word_sum body.old) ≡ true }
    ensures { body.new ≡ sent_body protocol relocation.end after relocation.endpoint.port body.old }
{
    let at = port_at(protocol, relocation.end);
    let port = relocation.endpoint.port;
    let gone = before + u32::from(word_at(body, at));
    let old = word_at(body, sum_at(protocol));
    put_word(body, at, port);
    if has_no_sum(protocol, old) {
        return;
    }
    let moved = move_sum(old, gone, after + u32::from(port));
    put_sum(body, protocol, moved);
}

// Whether a body with this sum has none.
pub fn has_no_sum(protocol: Protocol, sum: u16) -> bool
    ensures { result ≡ is_absent protocol sum }
{
    protocol == Protocol::Udp && sum == 0
}

// Whether no byte is other than 0.
fn is_blank(body: &[u8]) -> bool
    ensures { IsTrue result ↔ All (λ byte. byte ≡ 0) body.now }
{
    body.iter().all(|&byte| byte == 0)
}

// Whether this body's sum is a 0 that is to be sent as 65,535. For an echo with a sum of 0 alone this reads the rest of it.
pub fn is_spelled_out(protocol: Protocol, sum: u16, body: &[u8]) -> bool
    ensures { result ≡ (sum == 0 && is_spelled_out protocol (word_sum body.now)) }
{
    if sum != 0 {
        return false;
    }
    match protocol {
        Protocol::Udp => true,
        Protocol::Tcp => false,
        Protocol::Echo => is_blank(body),
    }
}

// Puts a moved sum into its place, in the spelling in which it is sent, and answers what it put.
pub fn put_sum(body: &mut [u8], protocol: Protocol, moved: u16) -> u16
    requires long { sum_at protocol + 1 < length body.old }
    ensures put { body.new ≡ put_word body.old (sum_at protocol) result }
    ensures is { result ≡ respelled protocol moved (word_sum (put_word body.old (sum_at protocol) 0)) }
{
    let place = sum_at(protocol);
    put_word(body, place, moved);
    if !is_spelled_out(protocol, moved, body) {
        return moved;
    }
    put_word(body, place, 0xffff);
    0xffff
}
