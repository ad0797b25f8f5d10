// Where the fields of headers and bodies stand.
ghost use Rattle.packets.specs.Fields.{address_at, port_at, sum_at};
ghost use Rattle.std.specs.Prelude.{◌≡◌};

use crate::facts::End;
use mappings::event::Protocol;

// A header has this many bytes, and the body follows it.
pub const HEADER: usize = 20;

// Of the header.
pub const VERSION_AND_LENGTH: usize = 0;

pub const TOTAL_LENGTH: usize = 2;

pub const FRAGMENT: usize = 6;

pub const TTL: usize = 8;

pub const PROTOCOL: usize = 9;

pub const HEADER_SUM: usize = 10;

pub const SOURCE: usize = 12;

pub const DESTINATION: usize = 16;

// Of a UDP body.
pub const UDP_LENGTH: usize = 4;

pub const UDP_SUM: usize = 6;

// Of a TCP body; the data offset is the high half of its byte.
pub const TCP_OFFSET: usize = 12;

pub const TCP_SUM: usize = 16;

// Of an ICMP body.
pub const ICMP_KIND: usize = 0;

pub const ICMP_CODE: usize = 1;

pub const ICMP_SUM: usize = 2;

pub const ECHO_IDENTIFIER: usize = 4;

// An ICMP message begins with this many bytes, and what an error quotes follows them.
pub const MESSAGE_HEADER: usize = 8;

// Where an end's address stands in the header.
pub fn address_at(end: End) -> usize
    ensures { result ≡ address_at end }
{
    match end {
        End::Source => SOURCE,
        End::Destination => DESTINATION,
    }
}

// Where an end's port stands in the body.
pub fn port_at(protocol: Protocol, end: End) -> usize
    ensures { result ≡ port_at protocol end }
{
    match (protocol, end) {
        (Protocol::Udp | Protocol::Tcp, End::Source) => 0,
        (Protocol::Udp | Protocol::Tcp, End::Destination) => 2,
        (Protocol::Echo, _) => ECHO_IDENTIFIER,
    }
}

// Where the body's own sum stands.
pub fn sum_at(protocol: Protocol) -> usize
    ensures { result ≡ sum_at protocol }
{
    match protocol {
        Protocol::Udp => UDP_SUM,
        Protocol::Tcp => TCP_SUM,
        Protocol::Echo => ICMP_SUM,
    }
}
