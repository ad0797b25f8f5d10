// The arithmetic of settings: blocks of ports, first blocks, and subscribers' addresses.
ghost use Rattle.blocks.specs.Config.{blocks_of};
ghost use Rattle.blocks.specs.Ports.{address_of, first_holder, is_further, place_of, port_at, subscriber_at};
ghost use Rattle.blocks.specs.Settings.{config};
ghost use Rattle.std.specs.Prelude.{◌≡◌};

use super::Settings;
use crate::place::Place;

impl Settings {
    // The one address that the world sees.
    pub fn external(&self) -> u32
        ensures { result ≡ (config self.now).external }
    {
        self.external
    }

    // How many subscribers there are; they are numbered from 0.
    pub fn subscribers(&self) -> u16
        ensures { result ≡ (config self.now).subscribers }
    {
        self.subscribers
    }

    // How many blocks the ports from 1,024 on make.
    pub fn blocks(&self) -> u16
        ensures { result ≡ blocks_of (config self.now) }
    {
        64512 / self.size
    }

    // Where a port lies, if it lies in a block at all.
    pub fn place(&self, port: u16) -> Option<Place>
        ensures { result ≡ place_of (config self.now) port }
    {
        let from_lowest = port.checked_sub(1024)?;
        Some(Place {
            block: from_lowest / self.size,
            offset: from_lowest % self.size,
        })
    }

    // The port that lies there, if there is such a place.
    pub fn port(&self, place: Place) -> Option<u16>
        ensures { result ≡ port_at (config self.now) place }
    {
        let is_one = place.block < self.blocks() && place.offset < self.size;
        is_one.then(|| 1024 + place.block * self.size + place.offset)
    }

    // The subscriber whose first block this is.
    pub fn first_holder(&self, block: u16) -> Option<u16>
        ensures { result ≡ first_holder (config self.now) block }
    {
        (block < self.subscribers).then_some(block)
    }

    // Whether this is a block that is given to subscribers who need more than their first.
    pub fn is_further(&self, block: u16) -> bool
        ensures { result ≡ is_further (config self.now) block }
    {
        self.subscribers <= block && block < self.blocks()
    }

    // A subscriber's internal address.
    pub fn address(&self, subscriber: u16) -> Option<u32>
        ensures { result ≡ address_of (config self.now) subscriber }
    {
        (subscriber < self.subscribers).then(|| self.internal + u32::from(subscriber))
    }

    // The subscriber whose internal address this is.
    pub fn subscriber_at(&self, address: u32) -> Option<u16>
        ensures { result ≡ subscriber_at (config self.now) address }
    {
        let number = u16::try_from(address.checked_sub(self.internal)?).ok()?;
        (number < self.subscribers).then_some(number)
    }
}
