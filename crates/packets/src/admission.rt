// Of what was read: where it comes from, where it goes to, and whether it may go on.
ghost use Rattle.packets.specs.Reading.{admitted_in, destination_in, heading_in, source_in};
ghost use Rattle.packets.specs.declared.facts.Heading.{Heading};
ghost use Rattle.std.specs.Prelude.{◌≡◌};

use crate::facts::{Heading, Reading};
use blocks::refusal::Refusal;

// What is read of an error has the heading of the packet that brings it.
pub trait Headed: Copy {
    ghost heading: { Self → Heading };

    fn heading(self) -> Heading
        ensures { result ≡ heading self };
}

impl Headed for Heading {
    ghost heading = { λ h. h };

    fn heading(self) -> Heading {
        self
    }
}

impl<E: Headed> Reading<E> {
    fn heading(self) -> Heading
        ensures { result ≡ heading_in E.heading self }
    {
        match self {
            Reading::Packet(facts) => Heading {
                source: facts.source.address,
                destination: facts.destination.address,
                ttl: facts.ttl,
            },
            Reading::Error(error) => error.heading(),
        }
    }

    // The address that it comes from.
    pub fn source(self) -> u32
        ensures { result ≡ source_in E.heading self }
    {
        self.heading().source
    }

    // The address that it goes to.
    pub fn destination(self) -> u32
        ensures { result ≡ destination_in E.heading self }
    {
        self.heading().destination
    }

    // Refuses what has no time to live left.
    pub fn admit(self) -> Result<Reading<E>, Refusal>
        ensures { result ≡ admitted_in E.heading self }
    {
        if self.heading().ttl <= 1 {
            return Err(Refusal::Expired);
        }
        Ok(self)
    }
}
