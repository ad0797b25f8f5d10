// The settings of a gateway, whose type says that they are within their limits.
ghost use Rattle.blocks.specs.Config.{within_limits};
ghost use Rattle.std.specs.Prelude.{◌≡◌, true};

mod format;
mod numbers;
mod ports;

// Clauses see settings as the record that `config` gives. A model of this type would give the same record, and want
// an inverse besides, since settings are copied and compared.
#[derive(Clone, Copy, Debug, PartialEq, Eq)]
pub struct Settings {
    // the one address that the world sees
    external: u32,
    // the address of subscriber 0; the others' follow it
    internal: u32,
    subscribers: u16,
    // ports in a block
    size: u16,
    // how many further blocks a subscriber may have
    further: u8,
    // ticks that a mapping lives after its last packet outwards
    life: u16,
    // ticks after that before its port is used again
    rest: u16,
    ghost limits: { within_limits (record { external = external; internal = internal; subscribers = subscribers; size = size; further = further; life = life; rest = rest }) ≡ true },
}
