// Writing the error that leaves, in place: the quoted packet is lent on as a part, and every sum is worked out from the old one
// and what changed.
ghost use Rattle.std.specs.Prelude.{◌≡◌, ◌+◌, ◌^◌, ◌<◌, ◌≤◌, true, length, Ok};
ghost use Rattle.errors.specs.Messages.{message_in};
ghost use Rattle.errors.specs.Requoting.{counted, error_body, left, requoted, requoted_body, requoted_header};
ghost use Rattle.packets.specs.declared.facts.Reading.TheVariants.{Error};
ghost use Rattle.packets.specs.Fields.{icmp_kind};
ghost use Rattle.sums.specs.Laws.{Edit};
ghost use Rattle.sums.specs.Sums.{right};
ghost use Rattle.sums.specs.Words.{word_sum};

use crate::notice::{Message, Notice};
use crate::relocating::quoted;
use mappings::event::Protocol;
use packets::addresses::{address_sum, halves};
use packets::facts::Relocation;
use packets::places::{HEADER, HEADER_SUM, ICMP_SUM, MESSAGE_HEADER, address_at, port_at, sum_at};
use packets::writer::{has_no_sum, put_sum, write_header};
use sums::move_sum;
use sums::words::{put_long, put_word, word_at};

// What some part of a packet lost and gained: the plain sums of the words that were replaced, and of those in their place.
#[derive(Clone, Copy, Debug, PartialEq, Eq)]
struct Difference {
    gone: u32,
    new: u32,
}

impl Difference {
    // Of one word, replaced by another.
    fn of_words(gone: u16, new: u16) -> Difference
        ensures gone { result.gone ≡ gone }
        ensures new { result.new ≡ new }
    {
        Difference {
            gone: gone.into(),
            new: new.into(),
        }
    }

    // Of two parts together.
    fn plus(self, other: Difference) -> Difference
        requires { (self.gone < 2 ^ 31) × (other.gone < 2 ^ 31) × (self.new < 2 ^ 31) × (other.new < 2 ^ 31) }
        ensures gone { result.gone ≡ self.gone + other.gone }
        ensures new { result.new ≡ self.new + other.new }
    {
        Difference {
            gone: self.gone + other.gone,
            new: self.new + other.new,
        }
    }
}

// Writes the message that leaves.
pub fn write(packet: &mut [u8], message: Message, relocation: Relocation)
    requires { message_in packet.old ≡ Ok message }
    ensures { packet.new ≡ left relocation.hops message relocation.end relocation.endpoint packet.old }
{
    match message {
        Message::Packet(facts) => packets::writer::write(packet, facts, relocation),
        Message::Error(notice) => write_error(packet, notice, relocation),
    }
}

fn write_error(packet: &mut [u8], notice: Notice, relocation: Relocation)
    requires { message_in packet.old ≡ Ok (Error notice) }
    ensures { packet.new ≡ left relocation.hops (Error notice) relocation.end relocation.endpoint packet.old }
{
    let (header, body) = packet.split_first_chunk_mut().unwrap();
    write_header(header, relocation);
    write_message(body, notice.quote.protocol, quoted(relocation));
}

// The body of an error, whose kind is never 0, so that its words are never all 0.
fn write_message(body: &mut [u8], protocol: Protocol, relocation: Relocation)
    requires long { 36 ≤ length body.old }
    requires kind { 0 < icmp_kind body.old }
    requires sum { right (word_sum body.old) ≡ true }
    ensures { body.new ≡ error_body protocol relocation.end relocation.endpoint body.old }
{
    let difference = write_quote(&mut body[MESSAGE_HEADER..], protocol, relocation);
    let sum = move_sum(word_at(body, ICMP_SUM), difference.gone, difference.new);
    put_word(body, ICMP_SUM, sum);
}

// The quoted packet: one end is replaced, and its sums, right or wrong, are moved by that. Its time to live stays.
fn write_quote(quote: &mut [u8], protocol: Protocol, relocation: Relocation) -> Difference
    requires long { 28 ≤ length quote.old }
    ensures is { quote.new ≡ requoted protocol relocation.end relocation.endpoint quote.old }
    ensures edit { Edit quote.old quote.new result.gone result.new }
{
    let (header, body) = quote.split_first_chunk_mut().unwrap();
    let address = Difference {
        gone: counted_of(protocol, address_sum(header, relocation.end)),
        new: counted_of(protocol, halves(relocation.endpoint.address)),
    };
    let header = write_quoted_header(header, relocation);
    let body = write_quoted_body(body, protocol, relocation, address);
    header.plus(body)
}

// What an address counts in the sum of a body.
fn counted_of(protocol: Protocol, sum: u32) -> u32
    ensures { result ≡ counted protocol sum }
{
    match protocol {
        Protocol::Udp | Protocol::Tcp => sum,
        Protocol::Echo => 0,
    }
}

fn write_quoted_header(header: &mut [u8; HEADER], relocation: Relocation) -> Difference
    ensures is { header.new ≡ requoted_header relocation.end relocation.endpoint.address header.old }
    ensures edit { Edit header.old header.new result.gone result.new }
    ensures small { (result.gone < 2 ^ 18) × (result.new < 2 ^ 18) }
{
    let Relocation { end, endpoint, .. } = relocation;
    let address = Difference {
        gone: address_sum(header, end),
        new: halves(endpoint.address),
    };
    let old = word_at(header, HEADER_SUM);
    let sum = move_sum(old, address.gone, address.new);
    put_long(header, address_at(end), endpoint.address);
    put_word(header, HEADER_SUM, sum);
    address.plus(Difference::of_words(old, sum))
}

// `address` is what the address counts in the body's sum before and after. A sum of which not the whole is quoted stays.
fn write_quoted_body(
    body: &mut [u8],
    protocol: Protocol,
    relocation: Relocation,
    address: Difference,
) -> Difference
    requires long { 8 ≤ length body.old }
    requires small { (address.gone < 2 ^ 18) × (address.new < 2 ^ 18) }
    ensures is { body.new ≡ requoted_body protocol relocation.end address.gone address.new relocation.endpoint.port body.old }
    ensures edit { Edit body.old body.new result.gone result.new }
    ensures small { (result.gone < 2 ^ 18) × (result.new < 2 ^ 18) }
{
    let port = relocation.endpoint.port;
    let at = port_at(protocol, relocation.end);
    let place = sum_at(protocol);
    let ports = Difference::of_words(word_at(body, at), port);
    put_word(body, at, port);
    if body.len() < place + 2 {
        return ports;
    }
    let old = word_at(body, place);
    if has_no_sum(protocol, old) {
        return ports;
    }
    let Difference { gone, new } = address.plus(ports);
    let moved = move_sum(old, gone, new);
    let sum = put_sum(body, protocol, moved);
    ports.plus(Difference::of_words(old, sum))
}
