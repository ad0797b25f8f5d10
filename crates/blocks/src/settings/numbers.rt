// The numbers that settings hold, for the tables that keep to them.
ghost use Rattle.blocks.specs.Settings.{config};
ghost use Rattle.std.specs.Prelude.{◌≡◌};

use super::Settings;

impl Settings {
    // Ports in a block.
    pub fn size(&self) -> u16
        ensures { result ≡ (config self.now).size }
    {
        self.size
    }

    // How many further blocks a subscriber may have.
    pub fn further(&self) -> u8
        ensures { result ≡ (config self.now).further }
    {
        self.further
    }

    // Ticks that a mapping lives after its last packet outwards.
    pub fn life(&self) -> u16
        ensures { result ≡ (config self.now).life }
    {
        self.life
    }

    // Ticks after its life before a mapping's port is used again.
    pub fn rest(&self) -> u16
        ensures { result ≡ (config self.now).rest }
    {
        self.rest
    }
}
