// What is read from a packet.
ghost use Rattle.packets.specs.Fields.{opposite, payload_of};
ghost use Rattle.std.specs.Prelude.{◌≡◌};

use blocks::refusal::Refusal;
use mappings::event::Protocol;

// What a packet carries, by its header's protocol number.
#[derive(Clone, Copy, Debug, PartialEq, Eq)]
pub enum Payload {
    // UDP
    Datagram,
    // TCP
    Segment,
    // ICMP
    Message,
    Other,
}

impl From<u8> for Payload {
    ghost from_gives = { λ number payload. payload ≡ payload_of number };

    fn from(number: u8) -> Payload {
        match number {
            17 => Payload::Datagram,
            6 => Payload::Segment,
            1 => Payload::Message,
            _ => Payload::Other,
        }
    }
}

// The two ends of a packet's way.
#[derive(Clone, Copy, Debug, PartialEq, Eq)]
pub enum End {
    Source,
    Destination,
}

impl End {
    // The other end.
    pub fn opposite(self) -> End
        ensures { result ≡ opposite self }
    {
        match self {
            End::Source => End::Destination,
            End::Destination => End::Source,
        }
    }
}

#[derive(Clone, Copy, Debug, PartialEq, Eq)]
pub struct Endpoint {
    pub address: u32,
    pub port: u16,
}

// What changes where a packet leaves: `endpoint` now stands at `end`, and its time to live is less by `hops`.
// Of a packet that comes in right after it went out, between two subscribers, it has fallen already.
// The protocol, which was read and is not replaced, stands beside it.
#[derive(Clone, Copy, Debug, PartialEq, Eq)]
pub struct Relocation {
    pub end: End,
    pub endpoint: Endpoint,
    pub hops: u8,
}

// A packet of one of the three protocols. `ttl` is its time to live.
#[derive(Clone, Copy, Debug, PartialEq, Eq)]
pub struct Facts {
    pub protocol: Protocol,
    pub source: Endpoint,
    pub destination: Endpoint,
    pub ttl: u8,
}

// The header of an ICMP error, whose quoted packet is read by whoever handles errors.
#[derive(Clone, Copy, Debug, PartialEq, Eq)]
pub struct Heading {
    pub source: u32,
    pub destination: u32,
    pub ttl: u8,
}

// A packet of one of the three protocols, or an ICMP error, of which `E` was read.
#[derive(Clone, Copy, Debug, PartialEq, Eq)]
pub enum Reading<E> {
    Packet(Facts),
    Error(E),
}

// What the bytes of a packet are, or why they are refused.
pub type Parsed = Result<Reading<Heading>, Refusal>;
