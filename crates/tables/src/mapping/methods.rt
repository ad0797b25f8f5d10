// What is asked of a mapping, and what becomes of it: each change gives a new mapping.
ghost use Rattle.blocks.specs.Settings.{config};
ghost use Rattle.mappings.specs.Mappings.{is_in, is_of, live, live_or_resting, made, noting, same_protocol, without};
ghost use Rattle.tables.specs.Rows.{meaning};
ghost use Rattle.std.specs.Prelude.{◌≡◌, ◌∷◌, take};

use super::Mapping;
use blocks::settings::Settings;
use mappings::event::{Outward, Protocol, Verdict};

// Puts an address first; the others move up, to where it stood or over the end.
fn put_first(addresses: &mut [u32; 16], address: u32)
    ensures { addresses.new ≡ take 16 (address ∷ without address addresses.old) }
{
    let last = addresses
        .iter()
        .position(|here| *here == address)
        .unwrap_or(15);
    addresses[..=last].rotate_right(1);
    addresses[0] = address;
}

impl Mapping {
    // A new mapping for a packet outwards at this tick.
    pub fn new(tick: u32, packet: &Outward) -> Mapping
        ensures { meaning result ≡ made tick packet.now }
    {
        let mut addresses = [0; 16];
        addresses[0] = packet.to;
        Mapping {
            subscriber: packet.subscriber,
            protocol: packet.protocol,
            port: packet.port,
            last: tick,
            addresses,
            count: 1,
        }
    }

    // The mapping after one more packet outwards, at this tick and to this address.
    pub fn noting(mut self, tick: u32, address: u32) -> Mapping
        ensures { meaning result ≡ noting tick address (meaning self) }
    {
        if self.count < 16 && !self.remembers(address) {
            self.count += 1;
        }
        put_first(&mut self.addresses, address);
        self.last = tick;
        self
    }

    // Whether it is live at this tick. The tick and the settings come each by itself, as the table holds them:
    // a pair of the two would be made anew for each call.
    pub fn is_live(&self, tick: u32, settings: &Settings) -> bool
        ensures { result ≡ live (config settings.now) tick (meaning self.now) }
    {
        u64::from(tick) <= u64::from(self.last) + u64::from(settings.life())
    }

    // Whether at this tick it is live, or its port rests.
    pub fn is_kept(&self, tick: u32, settings: &Settings) -> bool
        ensures { result ≡ live_or_resting (config settings.now) tick (meaning self.now) }
    {
        u64::from(tick)
            <= u64::from(self.last) + u64::from(settings.life()) + u64::from(settings.rest())
    }

    // Whether it is of this subscriber's protocol and port.
    pub fn is_of(&self, packet: &Outward) -> bool
        ensures { result ≡ is_of packet.now (meaning self.now) }
    {
        self.subscriber == packet.subscriber
            && self.protocol == packet.protocol
            && self.port == packet.port
    }

    pub fn has_protocol(&self, protocol: Protocol) -> bool
        ensures { result ≡ same_protocol self.now.protocol protocol }
    {
        self.protocol == protocol
    }

    // What comes in by it is delivered there.
    pub fn delivered(&self) -> Verdict
        ensures { result ≡ Verdict.Delivered self.now.subscriber self.now.port }
    {
        Verdict::Delivered {
            subscriber: self.subscriber,
            port: self.port,
        }
    }

    // Whether it sent to this address lately.
    pub fn remembers(&self, address: u32) -> bool
        ensures { result ≡ is_in address (meaning self.now).remembered }
    {
        self.addresses[..usize::from(self.count)].contains(&address)
    }
}
