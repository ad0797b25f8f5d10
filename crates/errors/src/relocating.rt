// What is read of a message after one end was replaced, without reading it again.
ghost use Rattle.errors.specs.Relocating.{relocated_heading, relocated_message, relocated_quote};
ghost use Rattle.packets.specs.Fields.{opposite};
ghost use Rattle.packets.specs.Laws.{other_end, relocated};
ghost use Rattle.packets.specs.declared.facts.End.TheVariants.{Destination, Source};
ghost use Rattle.std.specs.Prelude.{◌≡◌};

use crate::notice::{Message, Notice, Quote};
use mappings::event::Protocol;
use packets::facts::{End, Endpoint, Facts, Heading, Relocation};

// The message with one end replaced, its time to live less by some hops.
pub fn relocated(message: Message, relocation: Relocation) -> Message
    ensures { result ≡ relocated_message relocation.hops relocation.end relocation.endpoint message }
{
    match message {
        Message::Packet(facts) => Message::Packet(facts_at(facts, relocation)),
        Message::Error(notice) => Message::Error(Notice {
            heading: heading_at(notice.heading, relocation),
            quote: quote_at(notice.quote, quoted(relocation)),
        }),
    }
}

// An error goes the way back of what it quotes.
pub(crate) fn quoted(relocation: Relocation) -> Relocation
    ensures { result ≡ record { end = opposite relocation.end; endpoint = relocation.endpoint; hops = relocation.hops } }
{
    Relocation {
        end: relocation.end.opposite(),
        ..relocation
    }
}

// What stands at the source and at the destination, once `new` stands at `end`.
fn with_end<T: Copy>(end: End, new: T, source: T, destination: T) -> (T, T)
    ensures source { end ≡ Source → result ≡ (new, destination) }
    ensures destination { end ≡ Destination → result ≡ (source, new) }
{
    match end {
        End::Source => (new, destination),
        End::Destination => (source, new),
    }
}

// The end that is not replaced: an echo's identifier is both ports.
fn other_end(protocol: Protocol, new: Endpoint, old: Endpoint) -> Endpoint
    ensures { result ≡ other_end protocol new old }
{
    match protocol {
        Protocol::Udp | Protocol::Tcp => old,
        Protocol::Echo => Endpoint {
            port: new.port,
            ..old
        },
    }
}

// Both ends of a packet of this protocol, one of them replaced.
fn ends_at(
    protocol: Protocol,
    relocation: Relocation,
    source: Endpoint,
    destination: Endpoint,
) -> (Endpoint, Endpoint)
    ensures source { relocation.end ≡ Source → result ≡ (relocation.endpoint, other_end protocol relocation.endpoint destination) }
    ensures destination { relocation.end ≡ Destination → result ≡ (other_end protocol relocation.endpoint source, relocation.endpoint) }
{
    let Relocation { end, endpoint, .. } = relocation;
    with_end(
        end,
        endpoint,
        other_end(protocol, endpoint, source),
        other_end(protocol, endpoint, destination),
    )
}

fn facts_at(facts: Facts, relocation: Relocation) -> Facts
    ensures { result ≡ relocated relocation.hops relocation.end relocation.endpoint facts }
{
    let (source, destination) = ends_at(
        facts.protocol,
        relocation,
        facts.source,
        facts.destination,
    );
    Facts {
        source,
        destination,
        ttl: facts.ttl.saturating_sub(relocation.hops),
        ..facts
    }
}

fn quote_at(quote: Quote, relocation: Relocation) -> Quote
    ensures { result ≡ relocated_quote relocation.end relocation.endpoint quote }
{
    let (source, destination) = ends_at(
        quote.protocol,
        relocation,
        quote.source,
        quote.destination,
    );
    Quote {
        source,
        destination,
        ..quote
    }
}

fn heading_at(heading: Heading, relocation: Relocation) -> Heading
    ensures { result ≡ relocated_heading relocation.hops relocation.end relocation.endpoint.address heading }
{
    let (source, destination) = with_end(
        relocation.end,
        relocation.endpoint.address,
        heading.source,
        heading.destination,
    );
    Heading {
        source,
        destination,
        ttl: heading.ttl.saturating_sub(relocation.hops),
    }
}
