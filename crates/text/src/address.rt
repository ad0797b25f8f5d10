// Addresses as people write them: four numbers below 256, with dots between.
ghost use Rattle.std.specs.Prelude.{◌^◌};
ghost use Rattle.text.specs.Reading.{ReadsAs, IsBelow, dotted};

use std::net::Ipv4Addr;

pub fn address(text: &str) -> Option<u32>
    ensures { ReadsAs dotted (IsBelow (2 ^ 32)) text.now result }
{
    let address = text.parse::<Ipv4Addr>().ok()?;
    Some(address.to_bits())
}
