// What an address counts in a sum: its two words, added.
ghost use Rattle.packets.specs.Fields.{address_sum, halves};
ghost use Rattle.std.specs.Prelude.{◌≡◌, ◌^◌, ◌<◌};

use crate::facts::End;
use crate::places::{HEADER, address_at};
use sums::words::word_at;

// Of the address that stands at an end of a header.
pub fn address_sum(header: &[u8; HEADER], end: End) -> u32
    ensures is { result ≡ address_sum end header.now }
    ensures small { result < 2 ^ 17 }
{
    let at = address_at(end);
    u32::from(word_at(header, at)) + u32::from(word_at(header, at + 2))
}

// Of an address as a number.
pub fn halves(address: u32) -> u32
    ensures is { result ≡ halves address }
    ensures small { result < 2 ^ 17 }
{
    address / 65536 + address % 65536
}
