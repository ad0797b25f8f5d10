// Reading a message: a packet, or an error with the packet that it quotes.
ghost use Rattle.std.specs.Prelude.{◌≡◌};
ghost use Rattle.errors.specs.Messages.{message_in};
ghost use Rattle.errors.specs.Quotes.{protocol_of, quote_as, quoted_in};

use crate::notice::{Message, Notice, Quote};
use blocks::refusal::Refusal;
use mappings::event::Protocol;
use packets::facts::{End, Payload, Reading};
use packets::parts::Parts;
use packets::places::{FRAGMENT, HEADER, ICMP_KIND, MESSAGE_HEADER, PROTOCOL, VERSION_AND_LENGTH};
use packets::reader::endpoint;
use sums::words::word_at;

// The quoted packet follows the error's own header and the bytes that begin an ICMP message.
const QUOTE: usize = HEADER + MESSAGE_HEADER;

// A quote has at least this many bytes behind its header, in which the ports stand.
const LEAST_BODY: usize = 8;

// What the message of these bytes is, or why it is refused.
pub fn read(packet: &[u8]) -> Result<Message, Refusal>
    ensures { result ≡ message_in packet.now }
{
    match packets::reader::read(packet)? {
        Reading::Packet(facts) => Ok(Message::Packet(facts)),
        Reading::Error(heading) => {
            let quote = read_quote(&packet[QUOTE..])?;
            Ok(Message::Error(Notice { heading, quote }))
        }
    }
}

// The quoted packet. Its total length and its sums are not looked at, since a quote may be cut.
#[tactic(auto, using(std::proofs::lemmas::Bool::Decides::nat_tests), unfolding(crate::specs::Quotes::quoted_in))]
fn read_quote(quote: &[u8]) -> Result<Quote, Refusal>
    ensures { result ≡ quoted_in quote.now }
{
    let (header, body) = quote.split_first_chunk().ok_or(Refusal::UnknownProtocol)?;
    if body.len() < LEAST_BODY {
        return Err(Refusal::UnknownProtocol);
    }
    quote_as(Parts { header, body })
}

#[tactic(auto, using(std::proofs::lemmas::Bool::Decides::nat_tests), unfolding(crate::specs::Quotes::quote_as))]
fn quote_as(parts: Parts) -> Result<Quote, Refusal>
    ensures { result ≡ quote_as parts.entry.header.now parts.entry.body.now }
{
    let Parts { header, body, .. } = parts;
    if header[VERSION_AND_LENGTH] != 0x45 || word_at(header, FRAGMENT) % 0x2000 != 0 {
        return Err(Refusal::UnknownProtocol);
    }
    let protocol = quoted_protocol(header[PROTOCOL], body[ICMP_KIND])?;
    Ok(Quote {
        protocol,
        source: endpoint(protocol, End::Source, parts),
        destination: endpoint(protocol, End::Destination, parts),
    })
}

// The protocol of a quoted packet, by its number and, for ICMP, the kind of the message.
fn quoted_protocol(number: u8, kind: u8) -> Result<Protocol, Refusal>
    ensures { result ≡ protocol_of number kind }
{
    match (Payload::from(number), kind) {
        (Payload::Datagram, _) => Ok(Protocol::Udp),
        (Payload::Segment, _) => Ok(Protocol::Tcp),
        (Payload::Message, 8 | 0) => Ok(Protocol::Echo),
        _ => Err(Refusal::UnknownProtocol),
    }
}
