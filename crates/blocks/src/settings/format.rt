// Settings made from numbers, read from their 17 bytes, and written into them.
ghost use Rattle.blocks.specs.Config.{is_block_size};
ghost use Rattle.blocks.specs.Settings.{accepted, config, configs, settings_bytes, settings_in};
ghost use Rattle.std.specs.Prelude.{◌≡◌};

use super::Settings;
use crate::refusal::Refusal;

fn is_block_size(size: u16) -> bool
    ensures { result ≡ is_block_size size }
{
    matches!(size, 16 | 32 | 64 | 128 | 256 | 512 | 1024)
}

impl Settings {
    // Settings of these values, or `BadSettings` where one is out of its range.
    pub fn new(
        external: u32,
        internal: u32,
        subscribers: u16,
        size: u16,
        further: u8,
        life: u16,
        rest: u16,
    ) -> Result<Settings, Refusal>
        ensures { configs result ≡ accepted (record { external = external; internal = internal; subscribers = subscribers; size = size; further = further; life = life; rest = rest }) }
    {
        if !is_block_size(size) || subscribers > 4032 || subscribers > 64512 / size || further > 4 {
            return Err(Refusal::BadSettings);
        }
        if life < 120 || rest < 1 {
            return Err(Refusal::BadSettings);
        }
        let from = u64::from(internal);
        let end = from + u64::from(subscribers);
        let outside = u64::from(external);
        if end > 0x1_0000_0000 || (from <= outside && outside < end) {
            return Err(Refusal::BadSettings);
        }
        Ok(Settings {
            external,
            internal,
            subscribers,
            size,
            further,
            life,
            rest,
        })
    }

    // Settings from their 17 bytes: `Malformed` for another length, `BadSettings` for a value out of its range.
    pub fn read(bytes: &[u8]) -> Result<Settings, Refusal>
        ensures { configs result ≡ settings_in bytes.now }
    {
        let [a, b, c, d, e, f, g, h, i, j, k, l, further, m, n, o, p] = *bytes else {
            return Err(Refusal::Malformed);
        };
        Settings::new(
            u32::from_be_bytes([a, b, c, d]),
            u32::from_be_bytes([e, f, g, h]),
            u16::from_be_bytes([i, j]),
            u16::from_be_bytes([k, l]),
            further,
            u16::from_be_bytes([m, n]),
            u16::from_be_bytes([o, p]),
        )
    }

    // The 17 bytes of these settings, named one by one, since no array is joined out of arrays.
    pub fn to_bytes(&self) -> [u8; 17]
        ensures { result ≡ settings_bytes (config self.now) }
    {
        let [a, b, c, d] = self.external.to_be_bytes();
        let [e, f, g, h] = self.internal.to_be_bytes();
        let [i, j] = self.subscribers.to_be_bytes();
        let [k, l] = self.size.to_be_bytes();
        let [m, n] = self.life.to_be_bytes();
        let [o, p] = self.rest.to_be_bytes();
        [a, b, c, d, e, f, g, h, i, j, k, l, self.further, m, n, o, p]
    }
}
