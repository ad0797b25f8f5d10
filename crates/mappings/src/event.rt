// What happens to a gateway, one event at a time, and what becomes of it.
use blocks::refusal::Refusal;

#[derive(Clone, Copy, Debug, PartialEq, Eq)]
pub enum Protocol {
    Udp,
    Tcp,
    // an echo's identifier is its port
    Echo,
}

// A subscriber's packet on its way out. Of an error message these are the words of the packet that it quotes:
// the quoted destination is the subscriber's own port, and the quoted source is the address in `to`.
#[derive(Clone, Copy, Debug, PartialEq, Eq)]
pub struct Outward {
    pub subscriber: u16,
    pub protocol: Protocol,
    // internal
    pub port: u16,
    pub to: u32,
}

// A packet to our external address. Of an error message these are the words of the packet that it quotes:
// the quoted source is our external port, and the quoted destination, from which the error counts as coming, is the address in `from`.
#[derive(Clone, Copy, Debug, PartialEq, Eq)]
pub struct Inward {
    pub protocol: Protocol,
    // external
    pub port: u16,
    pub from: u32,
}

#[derive(Clone, Copy, Debug, PartialEq, Eq)]
pub enum Event {
    // a packet that was refused before its mapping could be looked for
    Unreadable(Refusal),
    Goes(Outward),
    Comes(Inward),
    ErrorGoes(Outward),
    ErrorComes(Inward),
    Tick,
}

#[derive(Clone, Copy, Debug, PartialEq, Eq)]
pub enum Verdict {
    // out, by this external port
    Sent { port: u16 },
    // in, to this subscriber's internal port
    Delivered { subscriber: u16, port: u16 },
    Refused(Refusal),
    Ticked,
}
