// A mapping as it lies in memory.
ghost use Rattle.std.specs.Prelude.{◌≤◌};

use mappings::event::Protocol;

mod methods;

#[derive(Clone, Copy, Debug, PartialEq, Eq)]
pub struct Mapping {
    subscriber: u16,
    protocol: Protocol,
    // internal
    port: u16,
    // the tick of its last packet outwards
    last: u32,
    // the first of these are the addresses that it sent to, the latest first;
    // an array with a count is the project's form for them, since a mapping is Copy and changes by value
    addresses: [u32; 16],
    // how many of them
    count: u8,
    ghost few: { count ≤ 16 },
}
