// What is read of an error and of the packet that it quotes.
ghost use Rattle.errors.specs.Messages.{heading_of};

use mappings::event::Protocol;
use packets::admission::Headed;
use packets::facts::{Endpoint, Heading, Reading};

// The packet that an error quotes, as far as it is quoted.
#[derive(Clone, Copy, Debug, PartialEq, Eq)]
pub struct Quote {
    pub protocol: Protocol,
    pub source: Endpoint,
    pub destination: Endpoint,
}

// An error: its own header, and what it quotes.
#[derive(Clone, Copy, Debug, PartialEq, Eq)]
pub struct Notice {
    pub heading: Heading,
    pub quote: Quote,
}

impl Headed for Notice {
    ghost heading = { heading_of };

    fn heading(self) -> Heading {
        self.heading
    }
}

// A packet, or an error about one.
pub type Message = Reading<Notice>;
