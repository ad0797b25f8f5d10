// From what was read of a packet to the event that it makes.
ghost use Rattle.blocks.specs.Settings.{config};
ghost use Rattle.hairpin.specs.Events.{accepted, arriving, inward, outward, refused_or, to_address};
ghost use Rattle.std.specs.Prelude.{◌≡◌};

use blocks::refusal::Refusal;
use blocks::settings::Settings;
use mappings::event::{Event, Inward, Outward};
use packets::facts::{Facts, Heading, Parsed, Reading};
use records::record::Side;

// The event of a packet from this side, of which this was read.
pub fn event(settings: &Settings, side: Side, reading: Parsed) -> Event
    ensures { result ≡ accepted (arriving (config settings.now) side) reading }
{
    arrival(settings, side, reading).unwrap_or_else(Event::Unreadable)
}

// The event of a packet that comes in right after it went out, and of which this was read.
pub fn return_event(settings: &Settings, reading: Parsed) -> Event
    ensures { result ≡ accepted (inward (config settings.now)) reading }
{
    coming_in(settings, reading).unwrap_or_else(Event::Unreadable)
}

fn arrival(settings: &Settings, side: Side, reading: Parsed) -> Result<Event, Refusal>
    ensures { refused_or result ≡ accepted (arriving (config settings.now) side) reading }
{
    let reading = reading?;
    match side {
        Side::Inside => {
            let subscriber = settings
                .subscriber_at(reading.source())
                .ok_or(Refusal::NoSubscriber)?;
            going_out(subscriber, reading.admit()?)
        }
        Side::Outside => coming_in(settings, reading.admit()),
    }
}

fn going_out(subscriber: u16, reading: Reading<Heading>) -> Result<Event, Refusal>
    ensures { refused_or result ≡ outward subscriber reading }
{
    match reading {
        Reading::Packet(facts) => Ok(Event::Goes(Outward {
            subscriber,
            protocol: facts.protocol,
            port: facts.source.port,
            to: facts.destination.address,
        })),
        Reading::Error(_) => Err(Refusal::UnrelatedError),
    }
}

// What comes to our external address, whatever its time to live.
fn coming_in(settings: &Settings, reading: Parsed) -> Result<Event, Refusal>
    ensures { refused_or result ≡ accepted (inward (config settings.now)) reading }
{
    match reading? {
        Reading::Packet(facts) => to_address(settings.external(), facts),
        Reading::Error(_) => Err(Refusal::UnrelatedError),
    }
}

fn to_address(external: u32, facts: Facts) -> Result<Event, Refusal>
    ensures { refused_or result ≡ to_address external facts }
{
    if facts.destination.address != external {
        return Err(Refusal::NoMapping);
    }
    Ok(Event::Comes(Inward {
        protocol: facts.protocol,
        port: facts.destination.port,
        from: facts.source.address,
    }))
}
